//! The corners of an element's value, while it is read.
ghost use Rattle.std.specs.Prelude.{◌≡◌, List, ℤ, [], ◌∷◌, ◌++◌, OnOk, true};
ghost use Rattle.grid_files.specs.Corners.{IsCorner};
ghost use Rattle.map_files.specs.Items.{fits_cube};
ghost use Rattle.map_files.specs.Openings.{IsValues};

use elem_cubes::Cell;
use grid_files::{OpenCorner, full_cube};
use std::alloc::{AllocError, Global};

/// The cubes of the corners so far, and whether one of these is too long for a cube.
#[derive(Drop)]
pub(crate) struct Values {
    pub(crate) cells: Vec<Cell>,
    pub(crate) long: bool,
}

impl Values {
    /// No corners.
    pub(crate) fn new(alloc: Global) -> Values
        ensures { IsValues result [] }
    {
        Values {
            cells: Vec::new(alloc),
            long: false,
        }
    }

    /// No corners again.
    pub(crate) fn clear(&mut self)
        ensures { IsValues self.new [] }
    {
        self.cells.clear();
        self.long = false;
    }

    /// One more corner.
    pub(crate) fn add(&mut self, corner: &OpenCorner) -> Result<(), AllocError>
        ensures { OnOk result ((vs : List (List ℤ)) (v : List ℤ) → IsValues self.old vs
            → IsCorner corner.now v → fits_cube v ≡ true → IsValues self.new (vs ++ v ∷ [])) }
    {
        match full_cube(corner) {
            Ok(cell) => self.cells.push(cell)?,
            Err(_) => self.long = true,
        }
        Ok(())
    }
}
