//! All laws of a witness, in the order of its lines.
ghost use Rattle.std.specs.Prelude.{◌≡◌, ◌<◌, ◌≤◌, ◌^◌, length, IfOk, IfErr, OnOk, IsTrue, Some};
ghost use Rattle.cube_sets.specs.Sets.{dimensions_agree};
ghost use Rattle.cell_complex.specs.Numbering.{IsOfPair};
ghost use Rattle.map_checks.specs.Faults.{HasNoSetFault};
ghost use Rattle.witness_laws.specs.Inputs.{all_cells};
ghost use Rattle.witness_laws.specs.Tables.{tables_format};
ghost use Rattle.witness_types.specs.Inputs.{given_of, IsWitnessInput, IsWithinTables};
ghost use Rattle.witness_sections.specs.Readings.{AreNamed};
ghost use Rattle.read_parts.specs.Values.{parts_value, AreTestable};
ghost use Rattle.witness_testing.specs.Given.{pair_given, map_given, pair_parts, map_parts};
ghost use Rattle.witness_testing.specs.Mapped.{AreSides};
ghost use Rattle.witness_testing.specs.Testing.{IsTested, IsTestFault, MeetsAll};

use crate::cells::{kept, map_dimension, pair_dimension};
use crate::claims::{map_claim, pair_claim};
use crate::matrices::test_matrices;
use crate::sides::test_side;
use cell_complex::{Numbered, complex_of};
use chains::Chain;
use cube_maps::CubeMap;
use cube_sets::CubeSet;
use field_mod::Field;
use read_parts::{Parts, ReadMap};
use std::alloc::{AllocError, Global};
use witness_sections::read_chains;
use witness_types::{Claim, Input, PairPart, WitnessFault};
use witness_values::{MapSides, test_cells};
use witness_writing::{both, faces};

/// The number of the first line behind the header.
const FIRST: u64 = 4;

// The lines of a pair, and its claim.
fn test_pair<const P: u16>(
    alloc: Global,
    field: Field<P>,
    x: &CubeSet,
    a: &CubeSet,
    part: &PairPart<P>,
) -> Result<Claim<P>, WitnessFault>
    requires agree { IsTrue (dimensions_agree x.now.dimension a.now.dimension) }
    requires few { length (all_cells x.now.cells a.now.cells) ≤ 4096 }
    requires part { AreTestable (pair_given x.now a.now) (pair_parts part.now) }
    ensures ok { IfOk result (IsTested (pair_given x.now a.now)
        (parts_value (pair_given x.now a.now) (pair_parts part.now))) }
    ensures err { IfErr result (IsTestFault (tables_format P (pair_given x.now a.now))
        (parts_value (pair_given x.now a.now) (pair_parts part.now))) }
{
    let top = pair_dimension(x, a);
    let set = both(alloc, x, a)?;
    let cells = faces(alloc, &set)?;
    let relative = kept(alloc, x, a)?;
    test_side(alloc, field, x, a, &cells, &relative, part, top, FIRST)?;
    let claim = pair_claim(alloc, part, top)?;
    Ok(claim)
}

// The cells of domain and range with their complexes, and the images over these.
fn sides_of<const P: u16>(
    alloc: Global,
    field: Field<P>,
    domain: Numbered,
    range: Numbered,
    images: &[Chain<P>],
) -> Result<MapSides<P>, AllocError>
    requires domain { IsOfPair domain }
    requires range { IsOfPair range }
    requires images { AreNamed (length range) images.now }
    ensures { IfOk result (AreSides domain range images.now) }
{
    // Its clauses say that the cells stand in order.
    let _count = range.len();
    let domain_complex = complex_of(alloc, field, &domain)?;
    let range_complex = complex_of(alloc, field, &range)?;
    let images = read_chains(alloc, field, &range, &range, images)?;
    Ok(MapSides {
        domain,
        range,
        domain_complex,
        range_complex,
        images,
    })
}

// All lines of a map.
fn test_lines<const P: u16>(
    alloc: Global,
    field: Field<P>,
    map: &CubeMap,
    x: &CubeSet,
    a: &CubeSet,
    y: &CubeSet,
    b: &CubeSet,
    top: u8,
    domain: &PairPart<P>,
    part: &ReadMap<P>,
) -> Result<(), WitnessFault>
    requires agree { IsTrue (dimensions_agree x.now.dimension a.now.dimension) }
    requires range_agree { IsTrue (dimensions_agree y.now.dimension b.now.dimension) }
    requires faultless { HasNoSetFault map.now.named x.now.cells a.now.cells y.now.cells
        b.now.cells }
    requires few { length (all_cells x.now.cells a.now.cells) ≤ 4096 }
    requires range_few { length (all_cells y.now.cells b.now.cells) ≤ 4096 }
    requires top { top ≡ (map_given map.now x.now a.now y.now b.now).top }
    requires parts { AreTestable (map_given map.now x.now a.now y.now b.now)
        (map_parts domain.now part.now) }
    ensures ok { OnOk result (MeetsAll P (map_given map.now x.now a.now y.now b.now)
        (parts_value (map_given map.now x.now a.now y.now b.now)
        (map_parts domain.now part.now))) }
    ensures domain_few { OnOk result (length domain.now.cycles.items < 2 ^ 32) }
    ensures range_few { OnOk result (length part.now.range.cycles.items < 2 ^ 32) }
    ensures err { IfErr result (IsTestFault
        (tables_format P (map_given map.now x.now a.now y.now b.now))
        (parts_value (map_given map.now x.now a.now y.now b.now)
        (map_parts domain.now part.now))) }
{
    let domain_set = both(alloc, x, a)?;
    let range_set = both(alloc, y, b)?;
    let cells = faces(alloc, &domain_set)?;
    let others = faces(alloc, &range_set)?;
    let relative = kept(alloc, x, a)?;
    let target = kept(alloc, y, b)?;
    let second = test_side(alloc, field, x, a, &cells, &relative, domain, top, FIRST)?;
    let third = test_side(
        alloc,
        field,
        y,
        b,
        &others,
        &target,
        &part.range,
        top,
        second,
    )?;
    let images = read_chains(alloc, field, &others, &target, &part.images)?;
    let sides = sides_of(alloc, field, cells, others, &part.images)?;
    let fourth = test_cells(alloc, field, map, &domain_set, &sides, part, third + 1)?;
    test_matrices(
        alloc,
        field,
        &sides.domain,
        &sides.range,
        &target,
        &images,
        top,
        domain,
        part,
        fourth + 1,
    )?;
    Ok(())
}

// All lines of a map, and its claim.
fn test_map<const P: u16>(
    alloc: Global,
    field: Field<P>,
    map: &CubeMap,
    x: &CubeSet,
    a: &CubeSet,
    y: &CubeSet,
    b: &CubeSet,
    domain: &PairPart<P>,
    part: ReadMap<P>,
) -> Result<Claim<P>, WitnessFault>
    requires agree { IsTrue (dimensions_agree x.now.dimension a.now.dimension) }
    requires range_agree { IsTrue (dimensions_agree y.now.dimension b.now.dimension) }
    requires faultless { HasNoSetFault map.now.named x.now.cells a.now.cells y.now.cells
        b.now.cells }
    requires few { length (all_cells x.now.cells a.now.cells) ≤ 4096 }
    requires range_few { length (all_cells y.now.cells b.now.cells) ≤ 4096 }
    requires parts { AreTestable (map_given map.now x.now a.now y.now b.now)
        (map_parts domain.now part) }
    ensures ok { IfOk result (IsTested (map_given map.now x.now a.now y.now b.now)
        (parts_value (map_given map.now x.now a.now y.now b.now) (map_parts domain.now part.entry))) }
    ensures err { IfErr result (IsTestFault
        (tables_format P (map_given map.now x.now a.now y.now b.now))
        (parts_value (map_given map.now x.now a.now y.now b.now) (map_parts domain.now part.entry))) }
{
    let top = map_dimension(map, x, a, y, b);
    test_lines(alloc, field, map, x, a, y, b, top, domain, &part)?;
    let claim = map_claim(alloc, domain, part, top)?;
    Ok(claim)
}

/// Tests all laws of the second pass on what was read of a witness: what it claims, or the first
/// line and law that fail.
pub fn test_laws<const P: u16>(
    alloc: Global,
    field: Field<P>,
    input: &Input,
    parts: Parts<P>,
) -> Result<Claim<P>, WitnessFault>
    requires input { IsWitnessInput input.now }
    requires limits { IsWithinTables (given_of input.now) }
    requires parts { AreTestable (given_of input.now) parts }
    ensures ok { IfOk result
        (IsTested (given_of input.now) (parts_value (given_of input.now) parts.entry)) }
    ensures err { IfErr result (IsTestFault (tables_format P (given_of input.now))
        (parts_value (given_of input.now) parts.entry)) }
{
    let Parts { domain, map } = parts;
    match input {
        Input::Pair { x, a } => test_pair(alloc, field, x, a, &domain),
        Input::Map {
            map: cubes,
            x,
            a,
            y,
            b,
        } => {
            let Some(part) = map else {
                unreachable!();
            };
            test_map(alloc, field, cubes, x, a, y, b, &domain, part)
        }
    }
}
