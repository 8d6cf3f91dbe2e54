//! The cells of a set file, while it is read.
ghost use Rattle.std.specs.Prelude.{◌≡◌, ◌≤◌, ◌||◌, [], List, length, nat_lt, OnOk, IfOk};
ghost use Rattle.std.specs.Ordering.{is_eq};
ghost use Rattle.elem_cubes.specs.Cells.{Factor};
ghost use Rattle.elem_cubes.specs.Order.{cell_cmp};
ghost use Rattle.cube_sets.specs.Sorted.{has};
ghost use Rattle.grid_files.specs.Kept.{AreMembers};

use cube_sets::CUBES;
use elem_cubes::Cell;
use indexmap::IndexSet;
use std::alloc::{AllocError, Global};
use std::marker::Model;
use std::mem;

/// Cells in the order in which they came, some of them maybe more than once. They are told apart
/// only once more than `CUBES` have come, since fewer are never too many.
#[derive(Drop)]
pub(crate) struct Cells {
    listed: Vec<Cell>,
    distinct: IndexSet<Cell>,
}

impl Model for Cells {
    ghost use Rattle.std.specs.Prelude.{List, ◌++◌};
    ghost use Rattle.elem_cubes.specs.Cells.{Factor};
    ghost use Rattle.grid_files.specs.Kept.{AreKept};

    ghost Value = { List (List Factor) };

    ghost view = { λ c. c.listed.items ++ c.distinct.keys };

    ghost invariant = { λ c. AreKept c.listed.items c.distinct.keys };
}

impl Cells {
    /// No cells.
    pub(crate) fn new(alloc: Global) -> Cells
        ensures { result ≡ [] }
    {
        Cells {
            listed: Vec::new(alloc),
            distinct: IndexSet::new(alloc),
        }
    }

    /// One more cell.
    pub(crate) fn insert(&mut self, cell: Cell) -> Result<(), AllocError>
        ensures { OnOk result ((c : List Factor)
            → has cell_cmp self.new c ≡ (is_eq (cell_cmp cell c) || has cell_cmp self.old c)) }
    {
        if self.distinct.is_empty() && self.listed.len() < CUBES as usize {
            self.listed.push(cell)?;
            return Ok(());
        }
        let unlisted = Vec::new(*self.distinct.allocator());
        self.distinct
            .extend(mem::replace(&mut self.listed, unlisted))?;
        self.distinct.insert(cell)?;
        Ok(())
    }

    /// Whether more than `CUBES` distinct cells have come.
    pub(crate) fn are_too_many(&self) -> bool
        ensures { (cells : List (List Factor)) → AreMembers self.now cells
            → result ≡ nat_lt CUBES (length cells) }
    {
        self.distinct.len() > CUBES as usize
    }

    /// The cells as a list.
    pub(crate) fn into_vec(self) -> Result<Vec<Cell>, AllocError>
        ensures cells { IfOk result (λ listed. listed.items ≡ self) }
        ensures few { (cells : List (List Factor)) → AreMembers self cells → length cells ≤ CUBES
            → IfOk result (λ listed. length listed.items ≤ CUBES) }
    {
        let mut cells = self.listed;
        cells.extend_from_slice(self.distinct.as_slice())?;
        Ok(cells)
    }
}
