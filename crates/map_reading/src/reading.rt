//! The witness of a map, or of whichever the input is.
ghost use Rattle.std.specs.Prelude.{◌≡◌, ◌≤◌, ◌<◌, true, length, IfOk, IfErr, if◌then◌else◌, ◌==◌};
ghost use Rattle.cube_sets.specs.Sets.{dimensions_agree};
ghost use Rattle.map_checks.specs.Faults.{HasNoSetFault};
ghost use Rattle.witness_laws.specs.Inputs.{all_cells};
ghost use Rattle.witness_types.specs.Answers.{IsHeaded};
ghost use Rattle.witness_types.specs.Headers.{body_of};
ghost use Rattle.witness_types.specs.Inputs.{given_of, IsWitnessInput, IsWithinTables};
ghost use Rattle.witness_reading.specs.Reading.{IsRead, IsReadFault};
ghost use Rattle.map_lines.specs.Whole.{map_given};

use crate::whole::map_due;
use cube_maps::CubeMap;
use cube_sets::CubeSet;
use field_mod::Field;
use read_parts::Parts;
use std::alloc::Global;
use witness_laws::WitnessFault;
use witness_reading::{body, fault_at, read_pair};
use witness_types::Input;

// The first where it is known, else the second.
fn known_of(first: u8, second: u8) -> u8
    ensures { result ≡ if first == 0 then second else first }
{
    if first == 0 { second } else { first }
}

// The dimension of a map of sets.
fn known(map: &CubeMap, x: &CubeSet, a: &CubeSet, y: &CubeSet, b: &CubeSet) -> u8
    ensures { result ≡ (map_given map.now x.now a.now y.now b.now).top }
{
    let range = known_of(y.dimension(), known_of(b.dimension(), 0));
    known_of(
        map.dimension(),
        known_of(x.dimension(), known_of(a.dimension(), range)),
    )
}

// The dimension of a map of sets is small.
#[tactic(auto, using(witness_writing::proofs::Whole::few_known))]
fn small(map: &CubeMap, x: &CubeSet, a: &CubeSet, y: &CubeSet, b: &CubeSet)
    ensures { (map_given map.now x.now a.now y.now b.now).top ≤ 200 }
{
    let _map = map.dimension();
    let _x = x.dimension();
    let _a = a.dimension();
    let _y = y.dimension();
    let _b = b.dimension();
}

// The first pass over the witness of a map.
fn read_map<const P: u16>(
    alloc: Global,
    field: Field<P>,
    bytes: &[u8],
    map: &CubeMap,
    x: &CubeSet,
    a: &CubeSet,
    y: &CubeSet,
    b: &CubeSet,
) -> Result<Parts<P>, WitnessFault>
    requires modulus { 0 < P }
    requires agree { dimensions_agree x.now.dimension a.now.dimension ≡ true }
    requires range_agree { dimensions_agree y.now.dimension b.now.dimension ≡ true }
    requires few { length (all_cells x.now.cells a.now.cells) ≤ 4096 }
    requires few_range { length (all_cells y.now.cells b.now.cells) ≤ 4096 }
    requires faultless { HasNoSetFault map.now.named x.now.cells a.now.cells y.now.cells
        b.now.cells }
    ensures ok { IfOk result (IsRead P (map_given map.now x.now a.now y.now b.now)
        (body_of bytes.now)) }
    ensures err { IfErr result (IsReadFault P (map_given map.now x.now a.now y.now b.now)
        (body_of bytes.now)) }
{
    let lines = body(bytes);
    small(map, x, a, y, b);
    let top = known(map, x, a, y, b);
    match map_due(alloc, field, lines, map, x, a, y, b, top) {
        Ok((domain, read)) => Ok(Parts {
            domain,
            map: Some(read),
        }),
        Err(stop) => Err(fault_at(lines, stop)),
    }
}

/// The first pass over a witness file of version 1 whose header is right: its parts, which are the
/// value of its lines, or the first line behind the header that may not stand there, or that names
/// a cell that it may not name.
pub fn read_witness<const P: u16>(
    alloc: Global,
    field: Field<P>,
    bytes: &[u8],
    input: &Input,
) -> Result<Parts<P>, WitnessFault>
    requires header { IsHeaded 1 P input.now bytes.now }
    requires input { IsWitnessInput input.now }
    requires limits { IsWithinTables (given_of input.now) }
    ensures ok { IfOk result (IsRead P (given_of input.now) (body_of bytes.now)) }
    ensures err { IfErr result (IsReadFault P (given_of input.now) (body_of bytes.now)) }
{
    match input {
        Input::Pair { x, a } => read_pair(alloc, field, bytes, x, a),
        Input::Map { map, x, a, y, b } => read_map(alloc, field, bytes, map, x, a, y, b),
    }
}
