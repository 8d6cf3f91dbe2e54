//! The report on a map of pairs, and its witness.
ghost use Rattle.std.specs.Prelude.{◌≡◌, ◌<◌, ◌⊎◌, length, IfOk, IfErr, OnOk};
ghost use Rattle.pair_maps.specs.Inputs.{IsFitting};
ghost use Rattle.pair_maps.specs.Refusals.{IsCarrierOf};
ghost use Rattle.pair_witness.specs.Witnesses.{witness_bytes};
ghost use Rattle.map_witness.specs.Bases.{AreBasesMade};
ghost use Rattle.map_witness.specs.Jobs.{IsMade};
ghost use Rattle.map_witness.specs.Refusals.{IsSmall, IsWithinLimits, RefusesLimits};

use crate::limits::test_pairs;
use crate::printed::report_and_file;
use faults::Fault;
use field_mod::Field;
use homology_basis::{Basis, CycleBasis};
use map_checks::Carrier;
use map_homology::{PairCells, range_basis, test_entries, test_inclusion};
use map_parts::domain_part;
use pair_maps::{PairMap, carrier_of};
use report::MapReport;
use std::alloc::Global;
use witness_limits::test_size;
use witness_types::PairPart;

// What is not below it is no witness file.
const WITNESS_BYTES: usize = 1_073_741_824;

// Bases of both pairs of a map, that of the domain by its cycles and as a part of a witness.
#[derive(Drop)]
struct Bases<const P: u16> {
    domain: PairCells,
    cycles: CycleBasis<P>,
    part: PairPart<P>,
    range: PairCells,
    basis: Basis<P>,
}

/// The homology of both pairs of a map and what the map induces in it, with the index part where
/// that is wanted, and the bytes of its witness; or the first refusal.
pub(crate) fn made_over<const P: u16>(
    alloc: Global,
    field: Field<P>,
    input: &PairMap,
    wanted: bool,
) -> Result<(MapReport, Vec<u8>), Fault>
    requires { IsFitting input.now }
    ensures { IsMade P wanted input.now result }
{
    let carrier = carrier_within(alloc, field, input)?;
    let bases = bases_of(alloc, field, input)?;
    made_with(alloc, field, input, carrier, bases, wanted)
}

// The carrier of a map within the limits of a witness; else the first refusal.
fn carrier_within<const P: u16>(
    alloc: Global,
    field: Field<P>,
    input: &PairMap,
) -> Result<Carrier<P>, Fault>
    requires { IsFitting input.now }
    ensures carrier { IfOk result (IsCarrierOf P input.now) }
    ensures within { OnOk result (IsWithinLimits P input.now) }
    ensures fault { IfErr result
        (λ fault. RefusesLimits P input.now fault ⊎ (fault ≡ Fault.OutOfMemory)) }
{
    test_pairs(alloc, input)?;
    let carrier = carrier_of(alloc, field, input)?;
    test_size(alloc, input)?;
    Ok(carrier)
}

// Bases of both pairs of a map with few cells.
fn bases_of<const P: u16>(
    alloc: Global,
    field: Field<P>,
    input: &PairMap,
) -> Result<Bases<P>, Fault>
    requires fits { IsFitting input.now }
    requires small { IsSmall input.now }
    ensures bases { IfOk result (λ made. AreBasesMade P input.now made.domain made.cycles
        made.part made.range made.basis) }
    ensures fault { IfErr result (λ fault. fault ≡ Fault.OutOfMemory) }
{
    let PairMap { map, x, a, y, b } = input;
    let (domain, whole) = range_basis(alloc, field, x, a)?;
    let (range, basis) = range_basis(alloc, field, y, b)?;
    let part = domain_part(alloc, field, map, x, a, y, b, &domain.cells, &whole)?;
    // Its clauses say what a basis is.
    let _dimension = whole.dimension(0);
    let cycles = whole.without_cocycles();
    Ok(Bases {
        domain,
        cycles,
        part,
        range,
        basis,
    })
}

// The report on a map within the limits, and the bytes of its witness, by its carrier and bases of
// its pairs; or the first refusal.
fn made_with<const P: u16>(
    alloc: Global,
    field: Field<P>,
    input: &PairMap,
    carrier: Carrier<P>,
    bases: Bases<P>,
    wanted: bool,
) -> Result<(MapReport, Vec<u8>), Fault>
    requires fits { IsFitting input.now }
    requires within { IsWithinLimits P input.now }
    requires carrier { IsCarrierOf P input.now carrier }
    requires bases { AreBasesMade P input.now bases.domain bases.cycles bases.part bases.range
        bases.basis }
    ensures { IsMade P wanted input.now result }
{
    let Bases {
        domain,
        cycles,
        part,
        range,
        basis,
    } = bases;
    test_entries(&cycles, &basis, carrier.dimension())?;
    test_inclusion(input, wanted)?;
    let (report, bytes) = report_and_file(
        alloc, field, input, carrier, &part, domain, &cycles, range, &basis, wanted,
    )?;
    test_bytes(&bytes)?;
    Ok((report, bytes))
}

// Nothing where a witness file may have as many bytes. For each pair at most twice the square of
// 4,096 terms, once for the images, and 16,777,216 for the values are fewer bytes; no proof says
// so.
fn test_bytes(bytes: &[u8]) -> Result<(), Fault>
    ensures few { OnOk result (length bytes.now < witness_bytes) }
    ensures fault { IfErr result (λ fault. fault ≡ Fault.OutOfMemory) }
{
    if bytes.len() >= WITNESS_BYTES {
        return Err(Fault::OutOfMemory);
    }
    Ok(())
}
