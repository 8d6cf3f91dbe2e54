//! Whether a pair has few cells enough.
ghost use Rattle.std.specs.Prelude.{◌≡◌, ◌<◌, ◌≤◌, ◌⊎◌, length, IfErr, OnOk, IsTrue};
ghost use Rattle.cube_sets.specs.Sets.{dimensions_agree};
ghost use Rattle.loading.specs.Sets.{most_cubes};
ghost use Rattle.witness_laws.specs.Inputs.{all_cells};
ghost use Rattle.witness_limits.specs.Limits.{most_witness_cells};

use cube_sets::{CubeSet, SetFault};
use faults::{Fault, LimitName};
use std::alloc::Global;

// The most cells of both sets of a pair whose chains a witness names.
const WITNESS_CELLS: u32 = 4096;

/// Nothing where both sets of a pair have few cells enough for a witness, else the limit.
pub fn test_cells(alloc: Global, x: &CubeSet, a: &CubeSet) -> Result<(), Fault>
    requires agree { IsTrue (dimensions_agree x.now.dimension a.now.dimension) }
    requires few_x { length x.now.cells ≤ most_cubes }
    requires few_a { length a.now.cells ≤ most_cubes }
    ensures few { OnOk result (length (all_cells x.now.cells a.now.cells) ≤ most_witness_cells) }
    ensures fault { IfErr result (λ fault.
        ((most_witness_cells < length (all_cells x.now.cells a.now.cells))
        × (fault ≡ Fault.Limit LimitName.WitnessCells most_witness_cells))
        ⊎ (fault ≡ Fault.OutOfMemory)) }
{
    test_count(alloc, x, a, LimitName::WitnessCells, WITNESS_CELLS)
}

/// Nothing where both sets of a pair have no more cells than so many, else this limit.
pub fn test_count(
    alloc: Global,
    x: &CubeSet,
    a: &CubeSet,
    count: LimitName,
    most: u32,
) -> Result<(), Fault>
    requires agree { IsTrue (dimensions_agree x.now.dimension a.now.dimension) }
    requires few_x { length x.now.cells ≤ most_cubes }
    requires few_a { length a.now.cells ≤ most_cubes }
    ensures few { OnOk result (length (all_cells x.now.cells a.now.cells) ≤ most) }
    ensures fault { IfErr result (λ fault. ((most < length (all_cells x.now.cells a.now.cells))
        × (fault ≡ Fault.Limit count most)) ⊎ (fault ≡ Fault.OutOfMemory)) }
{
    let whole = x.union(alloc, a)?;
    match whole.closure_within(alloc, most) {
        Ok(_) => Ok(()),
        Err(SetFault::TooMany) => Err(Fault::Limit {
            count,
            number: u64::from(most),
        }),
        Err(SetFault::Coordinates) => unreachable!(),
        Err(SetFault::NoMemory) => Err(Fault::OutOfMemory),
    }
}
