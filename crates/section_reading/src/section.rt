//! The section of a pair.
ghost use Rattle.std.specs.Prelude.{◌≡◌, ◌-◌, ◌<◌, ◌^◌, length, IfOk, IfErr};
ghost use Rattle.section_reading.specs.Section.{HasPair, StopsPair, HasSection, StopsSection};

use crate::cocycles::cocycles_due;
use field_mod::Field;
use std::alloc::Global;
use witness_laws::Law;
use witness_runs::{Stop, chains_due, cycles_due};
use witness_scanning::after;
use witness_types::PairPart;

// The cycles, the cocycles and the chains of the relative cells of these numbers.
fn pair_due<'a, const P: u16>(
    alloc: Global,
    field: Field<P>,
    bytes: &'a [u8],
    top: u8,
    kinds: &[u8],
    numbers: &[u32],
    wanted: &[u8],
) -> Result<(PairPart<P>, &'a [u8]), Stop>
    requires table { length kinds.now < 2 ^ 32 - 1 }
    requires degrees { top < 255 }
    requires beside { length wanted.now ≡ length numbers.now }
    ensures ok { IfOk result (λ r. HasPair P top kinds.now numbers.now wanted.now bytes.now
        r.0.cycles.items r.0.cocycles.items r.0.homotopy.items r.1.now) }
    ensures err { IfErr result
        (StopsPair P top kinds.now numbers.now wanted.now bytes.now) }
{
    let (cycles, behind) = cycles_due(alloc, field, bytes, top, kinds)?;
    let (cocycles, last) = cocycles_due(alloc, field, behind, &cycles, kinds)?;
    let (homotopy, rest) = chains_due(alloc, field, last, b"h", None, numbers, kinds, wanted)?;
    let part = PairPart {
        cycles,
        cocycles,
        homotopy,
    };
    Ok((part, rest))
}

/// The part of a pair that the section at the front tells, behind its first line; and what stands
/// behind the section. The table has the kinds of the cells that cycles and chains may name: one
/// more than the dimension of a relative cell, and 0 for others. Beside the number of each relative
/// cell stands the kind of cells that its chain may name.
pub fn section_due<'a, const P: u16>(
    alloc: Global,
    field: Field<P>,
    bytes: &'a [u8],
    head: &[u8],
    top: u8,
    kinds: &[u8],
    numbers: &[u32],
    wanted: &[u8],
) -> Result<(PairPart<P>, &'a [u8]), Stop>
    requires table { length kinds.now < 2 ^ 32 - 1 }
    requires degrees { top < 255 }
    requires beside { length wanted.now ≡ length numbers.now }
    ensures ok { IfOk result (λ r. HasSection P head.now top kinds.now numbers.now wanted.now
        bytes.now r.0.cycles.items r.0.cocycles.items r.0.homotopy.items r.1.now) }
    ensures err { IfErr result
        (StopsSection P head.now top kinds.now numbers.now wanted.now bytes.now) }
{
    match after(bytes, head) {
        Some(behind) => pair_due(alloc, field, behind, top, kinds, numbers, wanted),
        None => Err(Stop::At {
            left: bytes.len(),
            law: Law::Text,
        }),
    }
}
