//! The faces of the members of a set by their numbers.
ghost use Rattle.std.specs.Prelude.{◌≡◌, ◌<◌, ◌↔◌, [], length, map, slice_index_or, slice_get, Some, IsSome, IfOk};
ghost use Rattle.std.specs.List.{Contains};
ghost use Rattle.cell_complex.specs.Numbering.{number_of};
ghost use Rattle.cell_complex.specs.Sorted.{IsSortedCells};
ghost use Rattle.excision.specs.Numbers.{face_numbers};

use cell_complex::Numbered;
use cube_sets::CubeSet;
use elem_cubes::Cell;
use std::alloc::{AllocError, Global};
use std::marker::Model;

// Room for a number beside each place of a closure.
const PLACES: usize = 729;

/// For each member of a set, by its place, the numbers of its faces in the order of its closure;
/// seen as these lists. For a face that has no number the count of cells stands.
#[derive(Drop)]
pub struct FaceNumbers {
    rows: Vec<Vec<u32>>,
}

impl Model for FaceNumbers {
    ghost use Rattle.std.specs.Prelude.{List, ℕ, map};

    ghost Value = { List (List ℕ) };

    ghost view = { λ f. map (λ r. r.items) f.rows.items };
}

impl FaceNumbers {
    /// Those of all members of a set. Members in order have the faces at a place of their closures
    /// in order, mostly: so each is looked for first behind the one before it.
    pub(crate) fn of(
        alloc: Global,
        cells: &Numbered,
        x: &CubeSet,
    ) -> Result<FaceNumbers, AllocError>
        ensures { IfOk result (λ f. f ≡ map (face_numbers cells.now) x.now.cells) }
    {
        let mut near = [0u32; PLACES];
        let mut rows = Vec::with_capacity(alloc, x.len() as usize)?;
        for cell in x.cells() {
            let row = numbers_of(alloc, cells, cell, &mut near)?;
            rows.push(row)?;
        }
        Ok(FaceNumbers { rows })
    }

    /// The numbers of the faces of a member.
    pub fn of_member(&self, member: u32) -> &[u32]
        requires { member < length self.now }
        ensures { result.now ≡ slice_index_or self.now member [] }
    {
        self.rows[member as usize].as_slice()
    }
}

// The numbers of the faces of a cell.
fn numbers_of(
    alloc: Global,
    cells: &Numbered,
    cell: &Cell,
    near: &mut [u32; PLACES],
) -> Result<Vec<u32>, AllocError>
    ensures { IfOk result (λ v. v.items ≡ face_numbers cells.now cell.now) }
{
    let mut numbers = Vec::new(alloc);
    for face in cell.closure() {
        let place = numbers.len() % PLACES;
        let number = number_or_count(cells, &face, &mut near[place]);
        numbers.push(number)?;
    }
    Ok(numbers)
}

// The number of a cell, or the count of cells.
fn number_or_count(cells: &Numbered, cell: &Cell, near: &mut u32) -> u32
    ensures { result ≡ number_of cells.now cell.now }
{
    let Some(number) = cells.number_near(cell, near) else {
        return cells.len();
    };
    number
}
