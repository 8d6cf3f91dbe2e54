//! The report on a map of pairs.
ghost use Rattle.std.specs.Prelude.{◌≡◌, ◌⊎◌, IfOk, IfErr, IsTrue};
ghost use Rattle.pair_maps.specs.declared.inputs.PairMap.{PairMap as PairMaps};
ghost use Rattle.pair_maps.specs.Inputs.{IsFitting};
ghost use Rattle.induced_map.specs.Matrices.{HaveFewEntries};
ghost use Rattle.index_part.specs.Made.{TellsFault};
ghost use Rattle.map_homology.specs.Bases.{AreBasesWith, AreBasesOfMap};
ghost use Rattle.map_homology.specs.Right.{IsRightMap};
ghost use Rattle.map_homology.specs.Reported.{IsReported};

use crate::bases::{PairCells, domain_basis, range_basis};
use crate::entries::test_entries;
use crate::inclusion::test_inclusion;
use crate::parts::part_of;
use crate::tables::{Induced, Printed, induce};
use faults::Fault;
use field_mod::Field;
use homology_basis::{Basis, CycleBasis};
use map_checks::Carrier;
use pair_maps::{PairMap, carrier_of};
use report::MapReport;
use std::alloc::Global;

/// The homology of both pairs of a map, and what the map induces in it, with the index part where
/// that is wanted; or the first refusal.
pub(crate) fn report_over<const P: u16>(
    alloc: Global,
    field: Field<P>,
    input: &PairMap,
    wanted: bool,
) -> Result<MapReport, Fault>
    requires { IsFitting input.now }
    ensures { IsReported P wanted input.now result }
{
    let carrier = carrier_of(alloc, field, input)?;
    let (domain, cycles) = domain_basis(alloc, field, &input.x, &input.a)?;
    let (range, basis) = range_basis(alloc, field, &input.y, &input.b)?;
    test_entries(&cycles, &basis, carrier.dimension())?;
    test_inclusion(input, wanted)?;
    let report = report_of(
        alloc, field, carrier, domain, &cycles, range, &basis, wanted,
    )?;
    Ok(report)
}

// The report on the map of a carrier, in the cycles of bases of its pairs.
fn report_of<const P: u16>(
    alloc: Global,
    field: Field<P>,
    carrier: Carrier<P>,
    domain: PairCells,
    cycles: &CycleBasis<P>,
    range: PairCells,
    basis: &Basis<P>,
    wanted: bool,
) -> Result<MapReport, Fault>
    requires bases { AreBasesOfMap P wanted carrier domain cycles.now range basis.now }
    requires few { HaveFewEntries cycles.now basis.now carrier.dimension }
    ensures report { IfOk result (λ report. (m : PairMaps)
        → AreBasesWith P wanted m carrier.entry domain cycles.now range basis.now
        → IsRightMap P wanted m report) }
    ensures fault { IfErr result (λ fault. (IsTrue wanted
        × TellsFault P domain.cells cycles.now range.cells basis.now fault)
        ⊎ (fault ≡ Fault.OutOfMemory)) }
{
    let last = carrier.dimension();
    let made = induce(
        alloc, field, carrier, &domain, cycles, &range, basis, wanted,
    )?;
    let Induced {
        matrices: _,
        selector: _,
        printed,
    } = made;
    let Printed {
        index,
        ranks,
        tables,
    } = printed;
    let domain = part_of(alloc, domain, cycles, last)?;
    let range = part_of(alloc, range, basis, last)?;
    Ok(MapReport {
        domain,
        range,
        ranks,
        matrices: tables,
        index,
    })
}
