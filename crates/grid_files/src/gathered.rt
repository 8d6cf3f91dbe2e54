//! The dimension and the members of a set file so far.
ghost use Rattle.std.specs.Prelude.{◌≡◌, ◌≤◌, ℕ, ℤ, List, Option, true, Some, length, IsTrue, IfOk};
ghost use Rattle.std.specs.List.{list_all};
ghost use Rattle.elem_cubes.specs.Cells.{Factor, is_file_factor};
ghost use Rattle.grid_files.specs.Corners.{IsCellOf};
ghost use Rattle.cube_sets.specs.Sets.{Members};
ghost use Rattle.grid_files.specs.Items.{Item, fits, cause_of, with_item, cell_cause, cube_cause, with_cell, dimension_cause, dimension_line, is_wanted};
ghost use Rattle.grid_files.specs.Openings.{IsClosing};
ghost use Rattle.grid_files.specs.Readers.{IsGathered, Joins};

use crate::cells::Cells;
use crate::fault::{Kind, TextCause};
use crate::opening::Closing;
use crate::whole_cube::{cube_between, full_cube};
use elem_cubes::{Cell, MAX_EMBEDDING};

/// A cause that has no place yet, or no memory was left.
#[derive(Clone, Copy)]
pub(crate) enum Refusal {
    Cause(TextCause),
    NoMemory,
}

/// What a set file has given so far.
#[derive(Drop)]
pub(crate) struct Gathered {
    pub(crate) kind: Kind,
    pub(crate) dimension: u8,
    pub(crate) cells: Cells,
}

impl Gathered {
    // One more cube.
    fn join_cell(&mut self, cell: Cell) -> Result<(), Refusal>
        requires { IsTrue (list_all is_file_factor cell) }
        ensures joins { (set : Members) → IsGathered self.old set
            → Joins (cell_cause self.old.kind set cell) (with_cell set (Some cell)) self.new
            result }
        ensures kept { self.new.kind ≡ self.old.kind }
    {
        let dimension = cell.embedding() as u8;
        if self.dimension != 0 && self.dimension != dimension {
            return Err(Refusal::Cause(TextCause::MixedDimension));
        }
        if !is_wanted(self.kind, &cell) {
            return Err(Refusal::Cause(TextCause::NotFull));
        }
        if self.cells.insert(cell).is_err() {
            return Err(Refusal::NoMemory);
        }
        if self.cells.are_too_many() {
            return Err(Refusal::Cause(TextCause::TooMany));
        }
        self.dimension = dimension;
        Ok(())
    }

    // A dimension line.
    fn join_dimension(&mut self, z: i64) -> Result<(), Refusal>
        ensures joins { (set : Members) → IsGathered self.old set
            → Joins (dimension_cause set z) (with_item set (dimension_line z)) self.new result }
        ensures kept { self.new.kind ≡ self.old.kind }
    {
        if z < 1 {
            return Err(Refusal::Cause(TextCause::BadNumber));
        }
        if z > MAX_EMBEDDING as i64 {
            return Err(Refusal::Cause(TextCause::DimensionTooLarge));
        }
        let dimension = z as u8;
        if self.dimension != 0 && self.dimension != dimension {
            return Err(Refusal::Cause(TextCause::MixedDimension));
        }
        self.dimension = dimension;
        Ok(())
    }

    // A cube, or why there is none.
    fn join_cube(&mut self, cube: Result<Cell, TextCause>) -> Result<(), Refusal>
        requires { IfOk cube (λ cell. IsTrue (list_all is_file_factor cell)) }
        ensures joins { (set : Members) (numbers : ℕ) (q : Option (List Factor))
            → IsGathered self.old set → IsCellOf numbers q cube
            → Joins (cube_cause self.old.kind set numbers q) (with_cell set q) self.new result }
        ensures kept { self.new.kind ≡ self.old.kind }
    {
        match cube {
            Ok(cell) => self.join_cell(cell),
            Err(cause) => Err(Refusal::Cause(cause)),
        }
    }

    /// A whole item.
    pub(crate) fn join(&mut self, closing: Closing) -> Result<(), Refusal>
        ensures joins { (set : Members) (item : Item)
            → IsGathered self.old set → IsClosing closing item → fits item ≡ true
            → Joins (cause_of self.old.kind set item) (with_item set item) self.new result }
        ensures kept { self.new.kind ≡ self.old.kind }
    {
        match closing {
            Closing::Full(corner) => self.join_cube(full_cube(&corner)),
            Closing::Elementary(lower, upper) => self.join_cube(cube_between(&lower, &upper)),
            Closing::Dimension(z) => self.join_dimension(z),
            Closing::Skipped => Ok(()),
        }
    }
}

fn is_wanted(kind: Kind, cell: &Cell) -> bool
    ensures { result ≡ is_wanted kind cell.now }
{
    match kind {
        Kind::Any => true,
        Kind::Full => cell.is_full(),
    }
}
