//! Whether the pairs of a map have few cells enough for a witness.
ghost use Rattle.std.specs.Prelude.{◌≡◌, ◌⊎◌, IfErr, OnOk};
ghost use Rattle.pair_maps.specs.Inputs.{IsFitting};
ghost use Rattle.map_witness.specs.Refusals.{IsSmall, RefusesCells};

use cell_complex::CELLS;
use faults::{Fault, LimitName};
use pair_maps::PairMap;
use std::alloc::Global;
use witness_limits::{test_cells, test_count};

/// Nothing where domain and range have few cells enough for a witness, else the first limit.
pub(crate) fn test_pairs(alloc: Global, input: &PairMap) -> Result<(), Fault>
    requires { IsFitting input.now }
    ensures few { OnOk result (IsSmall input.now) }
    ensures fault { IfErr result
        (λ fault. RefusesCells input.now fault ⊎ (fault ≡ Fault.OutOfMemory)) }
{
    test_count(alloc, &input.x, &input.a, LimitName::Cells, CELLS as u32)?;
    test_count(alloc, &input.y, &input.b, LimitName::Cells, CELLS as u32)?;
    test_cells(alloc, &input.x, &input.a)?;
    test_cells(alloc, &input.y, &input.b)
}
