//! Maps of pairs whose values are acyclic.
ghost use Rattle.std.specs.Prelude.{◌≡◌, ◌<◌, ◌≤◌, ◌⊎◌, length, IfOk, IfErr, OnOk, IsTrue};
ghost use Rattle.cube_sets.specs.Sets.{dimensions_agree};
ghost use Rattle.cell_complex.specs.CellCount.{cell_count};
ghost use Rattle.map_checks.specs.Faults.{together};
ghost use Rattle.loading.specs.Sets.{most_cubes};
ghost use Rattle.loading.specs.Jobs.{IsAllowed};
ghost use Rattle.pair_maps.specs.Inputs.{IsFitting};
ghost use Rattle.pair_maps.specs.Refusals.{most_cells, HasFew, RefusesMapOf, RefusesPairMap, IsCarrierOf};

use crate::inputs::PairMap;
use crate::told::told;
use cell_complex::CELLS;
use cube_sets::{CubeSet, SetFault};
use faults::{Fault, LimitName};
use field_mod::Field;
use map_checks::{Carrier, check_values};
use std::alloc::Global;

/// The carrier of a map of pairs that has not too many cells, goes from the one pair to the other
/// and has acyclic values; else the first refusal.
pub fn carrier_of<const P: u16>(
    alloc: Global,
    field: Field<P>,
    input: &PairMap,
) -> Result<Carrier<P>, Fault>
    requires { IsFitting input.now }
    ensures carrier { IfOk result (IsCarrierOf P input.now) }
    ensures allowed { OnOk result (IsAllowed (RefusesPairMap P) input.now) }
    ensures fault { IfErr result
        (λ fault. RefusesPairMap P input.now fault ⊎ (fault ≡ Fault.OutOfMemory)) }
{
    test_cells(alloc, &input.x, &input.a)?;
    test_cells(alloc, &input.y, &input.b)?;
    carrier_within(alloc, field, input)
}

// Nothing where a set and its subset have not too many cells, else the limit.
fn test_cells(alloc: Global, x: &CubeSet, a: &CubeSet) -> Result<(), Fault>
    requires agree { IsTrue (dimensions_agree x.now.dimension a.now.dimension) }
    requires few_x { length x.now.cells ≤ most_cubes }
    requires few_a { length a.now.cells ≤ most_cubes }
    ensures few { OnOk result (cell_count (together x.now.cells a.now.cells) ≤ most_cells) }
    ensures fault { IfErr result (λ fault.
        ((most_cells < cell_count (together x.now.cells a.now.cells))
        × (fault ≡ Fault.Limit LimitName.Cells most_cells))
        ⊎ (fault ≡ Fault.OutOfMemory)) }
{
    let whole = x.union(alloc, a)?;
    match whole.closure_within(alloc, CELLS as u32) {
        Ok(_) => Ok(()),
        Err(SetFault::TooMany) => Err(Fault::Limit {
            count: LimitName::Cells,
            number: CELLS as u64,
        }),
        Err(SetFault::Coordinates) => unreachable!(),
        Err(SetFault::NoMemory) => Err(Fault::OutOfMemory),
    }
}

// The carrier of a map with few cells, or the first fault of the map.
fn carrier_within<const P: u16>(
    alloc: Global,
    field: Field<P>,
    input: &PairMap,
) -> Result<Carrier<P>, Fault>
    requires fits { IsFitting input.now }
    requires few { HasFew input.now }
    ensures carrier { IfOk result (IsCarrierOf P input.now) }
    ensures allowed { OnOk result (IsAllowed (RefusesMapOf P) input.now) }
    ensures fault { IfErr result
        (λ fault. RefusesMapOf P input.now fault ⊎ (fault ≡ Fault.OutOfMemory)) }
{
    let PairMap { map, x, a, y, b } = input;
    match check_values(alloc, field, map, x, a, y, b) {
        Ok(carrier) => Ok(carrier),
        Err(fault) => Err(told(alloc, &fault)?),
    }
}
