//! The cycles of a section.
ghost use Rattle.std.specs.Prelude.{◌≡◌, ◌-◌, ◌<◌, ◌^◌, ◌++◌, ◌∷◌, [], length, OnOk, IfOk, IfErr, IsTrue, ◌↔◌};
ghost use Rattle.witness_runs.specs.Cycles.{BeginsWithZ, AreCyclesAt, StopsCycles};

use crate::due::due_cycle;
use crate::miss::Stop;
use chains::Chain;
use field_mod::Field;
use std::alloc::{AllocError, Global};

// Whether the line at the front is one of a cycle, right or wrong.
fn begins_with_z(bytes: &[u8]) -> bool
    ensures { IsTrue result ↔ BeginsWithZ bytes.now }
{
    match bytes {
        [first, ..] => *first == b'z',
        [] => false,
    }
}

// One more cycle.
fn keep_cycle<const P: u16>(
    cycles: &mut Vec<(u8, Chain<P>)>,
    degree: u8,
    chain: Chain<P>,
) -> Result<(), AllocError>
    ensures { OnOk result (cycles.new.items ≡ cycles.old.items ++ (degree, chain.entry) ∷ []) }
{
    cycles.push((degree, chain))?;
    Ok(())
}

/// The cycles whose lines stand at the front, with their degrees, which never fall and are at most
/// `top`: up to the first line that does not begin with `z`; and what stands behind them.
pub fn cycles_due<'a, const P: u16>(
    alloc: Global,
    field: Field<P>,
    bytes: &'a [u8],
    top: u8,
    kinds: &[u8],
) -> Result<(Vec<(u8, Chain<P>)>, &'a [u8]), Stop>
    requires table { length kinds.now < 2 ^ 32 - 1 }
    requires degrees { top < 255 }
    ensures ok { IfOk result (λ r. AreCyclesAt P top kinds.now bytes.now r.0.items r.1.now) }
    ensures err { IfErr result (StopsCycles P top kinds.now bytes.now) }
{
    let mut cycles = Vec::new(alloc);
    let mut low = 0;
    let mut rest = bytes;
    'reading: while begins_with_z(rest) {
        match due_cycle(alloc, field, rest, low, top, kinds) {
            Ok((degree, chain, behind)) => {
                keep_cycle(&mut cycles, degree, chain)?;
                low = degree;
                rest = behind;
            }
            Err(miss) => return Err(Stop::at(rest.len(), miss)),
        }
    }
    Ok((cycles, rest))
}
