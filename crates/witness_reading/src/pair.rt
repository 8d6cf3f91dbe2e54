//! The witness of a pair.
ghost use Rattle.std.specs.Prelude.{◌≡◌, ◌≤◌, true, length, IfOk, IfErr};
ghost use Rattle.cube_sets.specs.Sets.{dimensions_agree};
ghost use Rattle.witness_laws.specs.Inputs.{all_cells};
ghost use Rattle.witness_types.specs.Headers.{body_of};
ghost use Rattle.witness_reading.specs.Ends.{IfTold};
ghost use Rattle.witness_reading.specs.Pairs.{pair_given, IsWhole, StopsWhole};
ghost use Rattle.witness_reading.specs.Reading.{IsRead, IsReadFault};

use crate::ends::end_due;
use crate::lines::body;
use crate::section::read_section;
use crate::told::fault_at;
use cube_sets::CubeSet;
use field_mod::Field;
use read_parts::Parts;
use std::alloc::Global;
use witness_laws::WitnessFault;
use witness_runs::Stop;
use witness_types::PairPart;

// The dimension of a pair.
fn known(x: &CubeSet, a: &CubeSet) -> u8
    ensures top { result ≡ (pair_given x.now a.now).top }
    ensures small { result ≤ 4 }
{
    let dimension = x.dimension();
    if dimension == 0 {
        a.dimension()
    } else {
        dimension
    }
}

// The section of the pair and the last line, which are all that stands behind the header.
fn pair_due<const P: u16>(
    alloc: Global,
    field: Field<P>,
    bytes: &[u8],
    x: &CubeSet,
    a: &CubeSet,
) -> Result<PairPart<P>, Stop>
    requires agree { dimensions_agree x.now.dimension a.now.dimension ≡ true }
    requires few { length (all_cells x.now.cells a.now.cells) ≤ 4096 }
    ensures ok { IfOk result (IsWhole (pair_given x.now a.now) bytes.now) }
    ensures err { IfErr result (IfTold (StopsWhole P (pair_given x.now a.now) bytes.now)) }
{
    match read_section(alloc, field, bytes, b"pair domain\n", x, a, known(x, a)) {
        Ok((part, rest)) => match end_due(rest) {
            Ok(()) => Ok(part),
            Err(end) => Err(end),
        },
        Err(stop) => Err(stop),
    }
}

/// The first pass over the witness of the pair of x and a: its parts, which are the value of its
/// lines, or the first line behind the header that may not stand there, or that names a cell that
/// it may not name.
pub fn read_pair<const P: u16>(
    alloc: Global,
    field: Field<P>,
    bytes: &[u8],
    x: &CubeSet,
    a: &CubeSet,
) -> Result<Parts<P>, WitnessFault>
    requires agree { dimensions_agree x.now.dimension a.now.dimension ≡ true }
    requires few { length (all_cells x.now.cells a.now.cells) ≤ 4096 }
    ensures ok { IfOk result (IsRead P (pair_given x.now a.now) (body_of bytes.now)) }
    ensures err { IfErr result (IsReadFault P (pair_given x.now a.now) (body_of bytes.now)) }
{
    let lines = body(bytes);
    match pair_due(alloc, field, lines, x, a) {
        Ok(domain) => Ok(Parts { domain, map: None }),
        Err(stop) => Err(fault_at(lines, stop)),
    }
}
