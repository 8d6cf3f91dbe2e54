//! Two sets of files, whose dimensions agree.
ghost use Rattle.std.specs.Prelude.{◌≡◌, ◌≤◌, length, IsTrue, IfOk, option_copied};
ghost use Rattle.cube_sets.specs.Sets.{dimensions_agree};
ghost use Rattle.loading.specs.Steps.{IsDue};
ghost use Rattle.loading.specs.Loads.{Loads};
ghost use Rattle.loading.specs.TwoSets.{two_bytes, second_name, two_sets, AreTwoSetsIn, AreOperands};

use crate::files::{copy_of, load_set, load_subset};
use faults::{Fault, Name};
use grid_files::{CUBES, CubeSet, Kind};
use outside::Files;
use std::alloc::Global;

/// Two sets.
#[derive(Drop)]
pub struct TwoSets {
    /// The first set.
    pub x: CubeSet,
    /// The second set.
    pub y: CubeSet,
}

/// The sets of two files, where their dimensions are equal or one of them is unknown: that of the
/// first file, then that of the second. Where there is no second file, its set is empty.
pub fn load_two_sets<F: Files>(
    alloc: Global,
    files: &mut F,
    x: &Name,
    y: Option<&Name>,
) -> Result<TwoSets, Fault>
    ensures loads { Loads (two_bytes (option_copied y.entry))
        (AreTwoSetsIn x.now (option_copied y.entry)) (F.seen files.old) (F.seen files.new) result }
    ensures operands { IfOk result AreOperands }
{
    let first = load_set(alloc, files, x, Kind::Any)?;
    let second = load_subset(alloc, files, y, Kind::Any)?;
    pair_of(alloc, x, y, first, second)
}

// The two sets of the files, where their dimensions agree; else the refusal of the second file.
fn pair_of(
    alloc: Global,
    x_name: &Name,
    y_name: Option<&Name>,
    x: CubeSet,
    y: CubeSet,
) -> Result<TwoSets, Fault>
    requires few_of_x { length x.cells ≤ CUBES }
    requires few_of_y { length y.cells ≤ CUBES }
    ensures due { IsDue
        (two_sets (second_name x_name.now (option_copied y_name.entry)) x y) result }
    ensures operands { IfOk result AreOperands }
{
    if agree(x.dimension(), y.dimension()) {
        return Ok(TwoSets { x, y });
    }
    let name = match y_name {
        Some(name) => copy_of(alloc, name)?,
        None => copy_of(alloc, x_name)?,
    };
    Err(Fault::Dimension {
        name,
        found: y.dimension(),
        before: x.dimension(),
    })
}

// Whether two dimensions are equal, or one of them is unknown.
fn agree(before: u8, found: u8) -> bool
    ensures { result ≡ dimensions_agree before found }
{
    before == found || before == 0 || found == 0
}
