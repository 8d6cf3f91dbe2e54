//! Whether the pair of the domain is included in that of the range.
ghost use Rattle.std.specs.Prelude.{◌≡◌, IfErr, OnOk};
ghost use Rattle.index_map.specs.Inclusion.{IsIncluded};
ghost use Rattle.index_part.specs.Made.{told_cube};
ghost use Rattle.index_part.specs.Refusals.{RefusesInclusion};

use faults::Fault;
use index_map::{NotIncluded, included};
use pair_maps::PairMap;

/// Nothing where the pair of the domain is included in that of the range, else the first cube that
/// shows that it is not. It takes no memory.
pub fn test_included(input: &PairMap) -> Result<(), Fault>
    ensures included { OnOk result (IsIncluded input.now.x.cells input.now.a.cells
        input.now.y.cells input.now.b.cells) }
    ensures fault { IfErr result (RefusesInclusion input.now) }
{
    match included(&input.x, &input.a, &input.y, &input.b) {
        Some(reason) => Err(fault_of(&reason)),
        None => Ok(()),
    }
}

// That a pair is not included as it is told.
fn fault_of(reason: &NotIncluded) -> Fault
    ensures { result ≡ told_cube reason.now }
{
    match reason {
        NotIncluded::Whole { cube } => Fault::NotInRange { cube: *cube },
        NotIncluded::Subset { cube } => Fault::NotInSubset { cube: *cube },
    }
}
