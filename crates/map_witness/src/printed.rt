//! What is printed on a map in bases of its pairs, and its witness.
ghost use Rattle.std.specs.Prelude.{◌≡◌, ◌⊎◌, IfOk, IfErr, IsTrue};
ghost use Rattle.induced_map.specs.Matrices.{HaveFewEntries};
ghost use Rattle.index_part.specs.Made.{TellsFault};
ghost use Rattle.map_homology.specs.Bases.{AreBasesWith};
ghost use Rattle.map_homology.specs.Right.{IsRightMap};
ghost use Rattle.pair_maps.specs.Inputs.{IsFitting};
ghost use Rattle.map_witness.specs.Bases.{IsPartOfCycles};
ghost use Rattle.map_witness.specs.Refusals.{IsWithinLimits};
ghost use Rattle.map_witness.specs.Witnesses.{IsFileOfMap};

use faults::Fault;
use field_mod::Field;
use homology_basis::{Basis, CycleBasis};
use map_checks::Carrier;
use map_homology::{Induced, PairCells, Printed, induce, part_of};
use map_parts::map_witness;
use pair_maps::PairMap;
use report::MapReport;
use std::alloc::Global;
use witness_types::PairPart;

/// The report on the map of a carrier in the cycles of bases of its pairs, and the bytes of its
/// witness by the part of the domain in these cycles.
pub(crate) fn report_and_file<const P: u16>(
    alloc: Global,
    field: Field<P>,
    input: &PairMap,
    carrier: Carrier<P>,
    part: &PairPart<P>,
    domain: PairCells,
    cycles: &CycleBasis<P>,
    range: PairCells,
    basis: &Basis<P>,
    wanted: bool,
) -> Result<(MapReport, Vec<u8>), Fault>
    requires fits { IsFitting input.now }
    requires within { IsWithinLimits P input.now }
    requires bases { AreBasesWith P wanted input.now carrier domain cycles.now range basis.now }
    requires few { HaveFewEntries cycles.now basis.now carrier.dimension }
    requires part { IsPartOfCycles P input.now domain.cells cycles.now part.now }
    ensures report { IfOk result (λ made. IsRightMap P wanted input.now made.0) }
    ensures file { IfOk result (λ made. IsFileOfMap P input.now made.0.domain.cycles
        made.0.range.cycles made.0.matrices.items made.1.items) }
    ensures fault { IfErr result (λ fault. (IsTrue wanted
        × TellsFault P domain.cells cycles.now range.cells basis.now fault)
        ⊎ (fault ≡ Fault.OutOfMemory)) }
{
    let last = carrier.dimension();
    let made = induce(
        alloc, field, carrier, &domain, cycles, &range, basis, wanted,
    )?;
    let Induced {
        matrices,
        mut selector,
        printed,
    } = made;
    let bytes = map_witness(
        alloc,
        field,
        &input.map,
        &input.x,
        &input.a,
        &input.y,
        &input.b,
        part,
        &range.cells,
        basis,
        &mut selector,
        matrices,
    )?;
    let Printed {
        index,
        ranks,
        tables,
    } = printed;
    let domain = part_of(alloc, domain, cycles, last)?;
    let range = part_of(alloc, range, basis, last)?;
    let report = MapReport {
        domain,
        range,
        ranks,
        matrices: tables,
        index,
    };
    Ok((report, bytes))
}
