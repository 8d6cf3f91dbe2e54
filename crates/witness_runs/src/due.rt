//! Lines that are due, one by one.
ghost use Rattle.std.specs.Prelude.{◌-◌, ◌<◌, ◌^◌, length, IfOk, IfErr};
ghost use Rattle.witness_runs.specs.Due.{IsDueChain, MissesChain, IsDueCycle, MissesCycle, IsDueVertex, MissesVertex};

use crate::kinds::{chain_of_kind, is_of_kind};
use crate::miss::Miss;
use chains::Chain;
use field_mod::Field;
use std::alloc::Global;
use witness_scanning::{chain_line, cycle_line, vertex_line};

/// The chain of the line of this word and these numbers at the front, where its terms name cells of
/// the kind, and what stands behind the line.
pub fn due_chain<'a, const P: u16>(
    alloc: Global,
    field: Field<P>,
    bytes: &'a [u8],
    word: &[u8],
    numbers: &[u32],
    kinds: &[u8],
    wanted: u8,
) -> Result<(Chain<P>, &'a [u8]), Miss>
    requires { length kinds.now < 2 ^ 32 - 1 }
    ensures ok { IfOk result
        (λ r. IsDueChain P word.now numbers.now kinds.now wanted bytes.now r.0 r.1.now) }
    ensures err { IfErr result (MissesChain P word.now numbers.now kinds.now wanted bytes.now) }
{
    match chain_line(alloc, bytes, word, numbers, P)? {
        Some((terms, rest)) => match chain_of_kind(alloc, field, kinds, wanted, &terms) {
            Ok(chain) => Ok((chain, rest)),
            Err(miss) => Err(miss),
        },
        None => Err(Miss::Text),
    }
}

/// The degree, from `low` to `top`, and the chain of the line of a cycle at the front, where its
/// terms name cells of the kind of the degree, which is one more; and what stands behind the line.
pub fn due_cycle<'a, const P: u16>(
    alloc: Global,
    field: Field<P>,
    bytes: &'a [u8],
    low: u8,
    top: u8,
    kinds: &[u8],
) -> Result<(u8, Chain<P>, &'a [u8]), Miss>
    requires table { length kinds.now < 2 ^ 32 - 1 }
    requires degrees { top < 255 }
    ensures ok { IfOk result
        (λ r. IsDueCycle P low top kinds.now bytes.now r.0 r.1 r.2.now) }
    ensures err { IfErr result (MissesCycle P low top kinds.now bytes.now) }
{
    match cycle_line(alloc, bytes, low, top, P)? {
        Some((degree, terms, rest)) => {
            match chain_of_kind(alloc, field, kinds, degree + 1, &terms) {
                Ok(chain) => Ok((degree, chain, rest)),
                Err(miss) => Err(miss),
            }
        }
        None => Err(Miss::Text),
    }
}

/// The vertex of the line for the cell of this number at the front, where it is of the kind, and
/// what stands behind the line.
pub fn due_vertex<'a>(
    bytes: &'a [u8],
    number: u32,
    kinds: &[u8],
    wanted: u8,
) -> Result<(u32, &'a [u8]), Miss>
    requires { length kinds.now < 2 ^ 32 - 1 }
    ensures ok { IfOk result
        (λ r. IsDueVertex number kinds.now wanted bytes.now r.0 r.1.now) }
    ensures err { IfErr result (MissesVertex number kinds.now wanted bytes.now) }
{
    let Some((vertex, rest)) = vertex_line(bytes, number) else {
        return Err(Miss::Text);
    };
    if is_of_kind(kinds, wanted, vertex) {
        Ok((vertex, rest))
    } else {
        Err(Miss::Cell)
    }
}
