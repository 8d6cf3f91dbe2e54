//! The relative cells of a pair of sets.
ghost use Rattle.std.specs.Prelude.{◌≡◌, ◌<◌, ◌≤◌, ◌^◌, ◌++◌, length, IfOk, OnOk, Err};
ghost use Rattle.cube_sets.specs.Closures.{cells_of};
ghost use Rattle.cell_complex.specs.RelativeComplex.{is_relative};
ghost use Rattle.cell_complex.specs.Numbering.{IsListing, IsOfPair};
ghost use Rattle.cell_complex.specs.CellCount.{cell_count};

use crate::fault::CellsFault;
use crate::numbered::Numbered;
use cell_points::{Points, PointsFault};
use cube_sets::CubeSet;
use std::alloc::Global;

/// The most cells that the two sets of a pair have together.
pub const CELLS: usize = 4_194_304;

/// The relative cells of a pair: the faces of members of `x` that are not faces of members of `a`.
/// `TooManyCells` comes exactly where there are more than `CELLS` faces of members of both sets
/// together.
pub fn relative(alloc: Global, x: &CubeSet, a: &CubeSet) -> Result<Numbered, CellsFault>
    ensures cells { IfOk result (IsListing (is_relative x.now.cells a.now.cells)) }
    ensures pair { IfOk result IsOfPair }
    ensures few { OnOk result (cell_count (x.now.cells ++ a.now.cells) ≤ CELLS) }
    ensures many { result ≡ Err CellsFault.TooManyCells
        → CELLS < cell_count (x.now.cells ++ a.now.cells) }
{
    relative_within(alloc, x, a, CELLS)
}

/// The relative cells of a pair, where both sets together have no more than so many cells.
/// `TooManyCells` comes exactly where they have more.
pub fn relative_within(
    alloc: Global,
    x: &CubeSet,
    a: &CubeSet,
    limit: usize,
) -> Result<Numbered, CellsFault>
    requires { limit < 2 ^ 32 }
    ensures cells { IfOk result (IsListing (is_relative x.now.cells a.now.cells)) }
    ensures pair { IfOk result IsOfPair }
    ensures few { OnOk result (cell_count (x.now.cells ++ a.now.cells) ≤ limit) }
    ensures many { result ≡ Err CellsFault.TooManyCells
        → limit < cell_count (x.now.cells ++ a.now.cells) }
{
    let subset = faces_within(alloc, a, limit)?;
    let faces = faces_within(alloc, x, limit)?;
    let room = limit - subset.len() as usize;
    let cells = faces.without(alloc, &subset)?;
    if room < cells.len() as usize {
        return Err(CellsFault::TooManyCells);
    }
    Ok(Numbered::of_points(cells))
}

// The faces of the members of a set, or `TooManyCells` where they alone are more than so many.
fn faces_within(alloc: Global, set: &CubeSet, limit: usize) -> Result<Points, CellsFault>
    requires { limit < 2 ^ 32 }
    ensures cells { IfOk result (λ faces. faces ≡ cells_of set.now.cells) }
    ensures few { OnOk result (length (cells_of set.now.cells) ≤ limit) }
    ensures many { result ≡ Err CellsFault.TooManyCells → limit < length (cells_of set.now.cells) }
{
    match Points::faces_within(alloc, set, limit as u32) {
        Ok(faces) => Ok(faces),
        Err(PointsFault::TooMany) => Err(CellsFault::TooManyCells),
        Err(PointsFault::NoMemory) => Err(CellsFault::NoMemory),
    }
}
