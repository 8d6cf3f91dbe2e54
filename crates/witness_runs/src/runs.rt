//! Runs of lines that are due.
ghost use Rattle.std.specs.Prelude.{◌≡◌, ◌-◌, ◌<◌, ◌^◌, ◌++◌, ◌∷◌, [], length, OnOk, IfOk, IfErr};
ghost use Rattle.witness_runs.specs.Due.{IsDueChain, MissesChain};
ghost use Rattle.witness_runs.specs.Runs.{head_of, HasRun, NameKinds, StopsRun};

use crate::due::due_chain;
use crate::miss::{Miss, Stop};
use chains::Chain;
use field_mod::Field;
use std::alloc::{AllocError, Global};

// The chain of a line of the run.
fn due_in_run<'a, const P: u16>(
    alloc: Global,
    field: Field<P>,
    bytes: &'a [u8],
    word: &[u8],
    first: Option<u32>,
    number: u32,
    kinds: &[u8],
    wanted: u8,
) -> Result<(Chain<P>, &'a [u8]), Miss>
    requires { length kinds.now < 2 ^ 32 - 1 }
    ensures ok { IfOk result (λ r.
        IsDueChain P word.now (head_of first number) kinds.now wanted bytes.now r.0 r.1.now) }
    ensures err { IfErr result
        (MissesChain P word.now (head_of first number) kinds.now wanted bytes.now) }
{
    match first {
        Some(first) => due_chain(alloc, field, bytes, word, &[first, number], kinds, wanted),
        None => due_chain(alloc, field, bytes, word, &[number], kinds, wanted),
    }
}

// One more chain.
fn keep<const P: u16>(chains: &mut Vec<Chain<P>>, chain: Chain<P>) -> Result<(), AllocError>
    ensures { OnOk result (chains.new.items ≡ chains.old.items ++ chain.entry ∷ []) }
{
    chains.push(chain)?;
    Ok(())
}

/// The chains of the lines of a run, one for each number, whose terms name cells of the kind that
/// stands beside the number; and what stands behind the run.
pub fn chains_due<'a, const P: u16>(
    alloc: Global,
    field: Field<P>,
    bytes: &'a [u8],
    word: &[u8],
    first: Option<u32>,
    numbers: &[u32],
    kinds: &[u8],
    wanted: &[u8],
) -> Result<(Vec<Chain<P>>, &'a [u8]), Stop>
    requires table { length kinds.now < 2 ^ 32 - 1 }
    requires beside { length wanted.now ≡ length numbers.now }
    ensures run { IfOk result (λ r. HasRun P word.now first numbers.now (length numbers.now)
        bytes.now r.0.items r.1.now) }
    ensures names { IfOk result (λ r. NameKinds kinds.now wanted.now r.0.items
        (length numbers.now)) }
    ensures err { IfErr result
        (StopsRun P word.now first numbers.now kinds.now wanted.now bytes.now) }
{
    let mut chains = Vec::new(alloc);
    let mut rest = bytes;
    for line in 0..numbers.len() {
        match due_in_run(
            alloc,
            field,
            rest,
            word,
            first,
            numbers[line],
            kinds,
            wanted[line],
        ) {
            Ok((chain, behind)) => {
                keep(&mut chains, chain)?;
                rest = behind;
            }
            Err(miss) => return Err(Stop::at(rest.len(), miss)),
        }
    }
    Ok((chains, rest))
}
