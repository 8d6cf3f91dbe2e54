//! The limits of a witness, and whether the map fits its sets.
ghost use Rattle.std.specs.Prelude.{◌≡◌, ◌⊎◌, IfErr, OnOk};
ghost use Rattle.map_checks.specs.Faults.{IsOfSets};
ghost use Rattle.pair_maps.specs.Inputs.{IsFitting};
ghost use Rattle.pair_maps.specs.Telling.{IsTold};
ghost use Rattle.replay_tool.specs.declared.inputs.Subject.TheVariants as subjects;
ghost use Rattle.replay_tool.specs.Inputs.{IsFit};
ghost use Rattle.replay_tool.specs.Refusals.{IsSound, IsReady, RefusesSets, RefusesReading};

use crate::inputs::Subject;
use faults::Fault;
use map_checks::{MapFault, check_sets};
use pair_maps::PairMap;
use std::alloc::Global;
use witness_limits::{test_cells, test_size};

/// Nothing where the limits are kept and the map fits its sets, else the first refusal.
pub(crate) fn make_ready(alloc: Global, subject: &Subject) -> Result<(), Fault>
    requires { IsFit subject.now }
    ensures ready { OnOk result (IsReady subject.now) }
    ensures fault { IfErr result
        (λ fault. RefusesReading subject.now fault ⊎ (fault ≡ Fault.OutOfMemory)) }
{
    match subject {
        Subject::Pair(sets) => test_cells(alloc, &sets.x, &sets.y),
        Subject::Map(map) => make_map_ready(alloc, map),
    }
}

// The same of a map.
fn make_map_ready(alloc: Global, map: &PairMap) -> Result<(), Fault>
    requires { IsFitting map.now }
    ensures ready { OnOk result (IsReady (subjects.Map map.now)) }
    ensures fault { IfErr result (λ fault.
        RefusesReading (subjects.Map map.now) fault ⊎ (fault ≡ Fault.OutOfMemory)) }
{
    test_cells(alloc, &map.x, &map.a)?;
    test_cells(alloc, &map.y, &map.b)?;
    test_sets(map)?;
    test_size(alloc, map)
}

// Nothing where the map names the cubes of its domain and goes from pair to pair, else why not.
fn test_sets(map: &PairMap) -> Result<(), Fault>
    ensures sound { OnOk result (IsSound (subjects.Map map.now)) }
    ensures fault { IfErr result (RefusesSets map.now) }
{
    match check_sets::<2>(&map.map, &map.x, &map.a, &map.y, &map.b) {
        Ok(()) => Ok(()),
        Err(fault) => Err(told_of_sets(&fault)),
    }
}

// A fault of the map and its sets as it is told.
fn told_of_sets(fault: &MapFault<2>) -> Fault
    requires { IsOfSets 2 fault.now }
    ensures { IsTold 2 fault.now result }
{
    match fault {
        MapFault::Undefined { cube } => Fault::Undefined { cube: *cube },
        MapFault::LeavesRange { cube, value } => Fault::LeavesRange {
            cube: *cube,
            value: *value,
        },
        MapFault::NotCarried { cube, value } => Fault::LeavesSubset {
            cube: *cube,
            value: *value,
        },
        MapFault::NotAcyclic { .. } => unreachable!(),
        MapFault::NoMemory => unreachable!(),
    }
}
