//! Lists of numbers, by numbers: the members of a set by the numbers of their cells.
ghost use Rattle.std.specs.Prelude.{◌≡◌, ℕ, ◌<◌, ◌⊎◌, [], List, length, map, slice_index_or, IfOk, OnOk};
ghost use Rattle.std.specs.List.{Contains};
ghost use Rattle.excision.specs.Numbers.{face_numbers};
ghost use Rattle.excision.specs.Owners.{Names, AreOwners};

use crate::face_numbers::FaceNumbers;
use cell_complex::Numbered;
use cube_sets::CubeSet;
use smallvec::SmallVec;
use std::alloc::{AllocError, Global};
use std::marker::Model;

/// For each number of a cell a list of numbers, such as the places of the members that have it;
/// seen as these lists.
#[derive(Drop)]
pub struct Owners {
    lists: Vec<SmallVec<u32, 4>>,
}

impl Model for Owners {
    ghost use Rattle.std.specs.Prelude.{List, ℕ, map};

    ghost Value = { List (List ℕ) };

    ghost view = { λ o. map (λ l. l.items) o.lists.items };
}

impl Owners {
    /// The owners of all cells: the members that have them as faces.
    pub(crate) fn of(
        alloc: Global,
        cells: &Numbered,
        x: &CubeSet,
        faces: &FaceNumbers,
    ) -> Result<Owners, AllocError>
        requires { faces.now ≡ map (face_numbers cells.now) x.now.cells }
        ensures count { IfOk result (λ o. length o ≡ length cells.now) }
        ensures owners { IfOk result (AreOwners cells.now x.now.cells) }
    {
        let _ = cells.len();
        let mut owners = Owners::none(alloc, cells.len())?;
        for member in 0..x.len() {
            owners.add(faces.of_member(member), member)?;
        }
        Ok(owners)
    }

    /// So many lists without owners.
    pub fn none(alloc: Global, count: u32) -> Result<Owners, AllocError>
        ensures count { IfOk result (λ o. length o ≡ count) }
        ensures empty { IfOk result (λ o. (n j : ℕ) → ¬ Names o n j) }
    {
        let mut lists = Vec::with_capacity(alloc, count as usize)?;
        for _ in 0..count {
            lists.push(SmallVec::new(alloc))?;
        }
        Ok(Owners { lists })
    }

    // How many lists there are.
    fn len(&self) -> usize
        ensures { result ≡ length self.now }
    {
        self.lists.len()
    }

    // A member is one of the owners of the cells of these numbers.
    fn add(&mut self, numbers: &[u32], member: u32) -> Result<(), AllocError>
        ensures count { OnOk result (length self.new ≡ length self.old) }
        ensures kept { OnOk result ((n j : ℕ) → Names self.old n j → Names self.new n j) }
        ensures added { OnOk result ((n : ℕ) → Contains numbers.now n → n < length self.old
            → Names self.new n member) }
    {
        for number in numbers {
            if *number as usize >= self.len() {
                continue;
            }
            self.push(*number, member)?;
        }
        Ok(())
    }

    /// One more owner of a cell.
    pub fn push(&mut self, number: u32, member: u32) -> Result<(), AllocError>
        requires { number < length self.old }
        ensures count { OnOk result (length self.new ≡ length self.old) }
        ensures kept { OnOk result ((n j : ℕ) → Names self.old n j → Names self.new n j) }
        ensures added { OnOk result (Names self.new number member) }
        ensures only { OnOk result ((n j : ℕ) → Names self.new n j → Names self.old n j
            ⊎ ((n ≡ number) × (j ≡ member))) }
    {
        self.lists[number as usize].push(member)?;
        Ok(())
    }

    /// The owners of a cell.
    pub fn of_number(&self, number: u32) -> &[u32]
        requires { number < length self.now }
        ensures { result.now ≡ slice_index_or self.now number [] }
    {
        self.lists[number as usize].as_slice()
    }
}
