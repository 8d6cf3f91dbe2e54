//! The dimension, the cubes and the pairs of a map file so far.
ghost use Rattle.std.specs.Prelude.{◌≡◌, ℤ, List, length, true, ◌==◌};
ghost use Rattle.std.specs.List.{list_all};
ghost use Rattle.elem_cubes.specs.Cells.{full_cell};
ghost use Rattle.cube_maps.specs.CubeMaps.{Mapping};
ghost use Rattle.grid_files.specs.Corners.{IsCorner};
ghost use Rattle.grid_files.specs.Items.{dimension_cause};
ghost use Rattle.map_files.specs.Items.{Item, fits, fits_cube, cause_of, with_item, element_cause, known, dimension_line, listed};
ghost use Rattle.map_files.specs.Openings.{IsClosing, IsValues, AreCubes};
ghost use Rattle.map_files.specs.Readers.{IsGathered, Joins};

use crate::opening::Closing;
use crate::parts::Parts;
use crate::values::Values;
use cube_maps::MAP_PAIRS;
use elem_cubes::{Cell, MAX_EMBEDDING};
use grid_files::{OpenCorner, TextCause, full_cube};

/// A cause that has no place yet, or no memory was left.
#[derive(Clone, Copy)]
pub(crate) enum Refusal {
    Cause(TextCause),
    NoMemory,
}

/// What a map file has given so far.
#[derive(Drop)]
pub(crate) struct Gathered {
    pub(crate) dimension: u8,
    pub(crate) parts: Parts,
}

// Whether all cells have this embedding dimension.
fn are_of(dimension: u8, cells: &[Cell]) -> bool
    ensures { result ≡ list_all (λ c. length c == dimension) cells.now }
{
    cells
        .iter()
        .all(|cell| cell.embedding() == u32::from(dimension))
}

impl Gathered {
    // One more element, whose corners are not too long.
    fn join_cubes(&mut self, cube: Cell, values: &[Cell]) -> Result<(), Refusal>
        ensures { (m : Mapping) (q : List ℤ) (vs : List (List ℤ)) → IsGathered self.old m
            → AreCubes q vs cube values.now
            → Joins (element_cause m q vs) (with_item m (listed q vs)) self.new result }
    {
        let dimension = cube.embedding() as u8;
        if self.dimension != 0 && self.dimension != dimension {
            return Err(Refusal::Cause(TextCause::MixedDimension));
        }
        if !are_of(dimension, values) {
            return Err(Refusal::Cause(TextCause::MixedDimension));
        }
        if self.parts.join(cube, values).is_err() {
            return Err(Refusal::NoMemory);
        }
        if self.parts.cube_count() > MAP_PAIRS as usize {
            return Err(Refusal::Cause(TextCause::TooMany));
        }
        if self.parts.pair_count() > MAP_PAIRS as usize {
            return Err(Refusal::Cause(TextCause::TooMany));
        }
        self.dimension = dimension;
        Ok(())
    }

    // One more element.
    fn join_element(&mut self, left: &OpenCorner, values: &Values) -> Result<(), Refusal>
        ensures { (m : Mapping) (q : List ℤ) (vs : List (List ℤ)) → IsGathered self.old m
            → IsCorner left.now q → IsValues values.now vs → fits (listed q vs) ≡ true
            → Joins (element_cause m q vs) (with_item m (listed q vs)) self.new result }
    {
        if values.long {
            return Err(Refusal::Cause(TextCause::DimensionTooLarge));
        }
        match full_cube(left) {
            Ok(cube) => self.join_cubes(cube, &values.cells),
            Err(_) => Err(Refusal::Cause(TextCause::DimensionTooLarge)),
        }
    }

    // A dimension line.
    fn join_dimension(&mut self, z: i64) -> Result<(), Refusal>
        ensures { (m : Mapping) → IsGathered self.old m
            → Joins (dimension_cause (known m) z) (with_item m (dimension_line z)) self.new result }
    {
        if z < 1 {
            return Err(Refusal::Cause(TextCause::BadNumber));
        }
        if z > MAX_EMBEDDING as i64 {
            return Err(Refusal::Cause(TextCause::DimensionTooLarge));
        }
        let dimension = z as u8;
        if self.dimension != 0 && self.dimension != dimension {
            return Err(Refusal::Cause(TextCause::MixedDimension));
        }
        self.dimension = dimension;
        Ok(())
    }

    /// A whole item; these are the corners of its list.
    pub(crate) fn join(&mut self, closing: Closing, values: &mut Values) -> Result<(), Refusal>
        ensures { (m : Mapping) (vs : List (List ℤ)) (item : Item) → IsGathered self.old m
            → IsValues values.old vs → IsClosing vs closing item → fits item ≡ true
            → Joins (cause_of m item) (with_item m item) self.new result }
    {
        match closing {
            Closing::Single(left, value) => match values.add(&value) {
                Ok(()) => self.join_element(&left, values),
                Err(_) => Err(Refusal::NoMemory),
            },
            Closing::Listed(left) => self.join_element(&left, values),
            Closing::Dimension(z) => self.join_dimension(z),
            Closing::Skipped => Ok(()),
        }
    }
}
