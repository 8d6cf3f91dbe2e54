//! What a chain file says, as the parts of a complex.
ghost use Rattle.std.specs.Prelude.{◌≡◌, ◌<◌, ◌≤◌, ◌^◌, length, sum, IfOk};
ghost use Rattle.chain_files.specs.Complexes.{count_in, number_in_degree};
ghost use Rattle.chain_files.specs.Making.{AreChains, AreCounts, AreSumsBefore, IsWithin, in_words};
ghost use Rattle.chain_files.specs.Numbers.{most_generators};

use crate::entry::Entry;
use crate::fault::ChainFault;
use chains::{Chain, ComplexFault};
use field_mod::Field;
use std::alloc::{AllocError, Global};

/// The boundaries as chains.
pub(crate) fn chains_of<const P: u16>(
    alloc: Global,
    field: Field<P>,
    entries: &[Entry],
) -> Result<Vec<Chain<P>>, AllocError>
    ensures { IfOk result (λ chains. AreChains P entries.now chains.items) }
{
    let mut chains = Vec::with_capacity(alloc, entries.len())?;
    for entry in entries {
        chains.push(Chain::from_terms(alloc, field, entry.terms())?)?;
    }
    Ok(chains)
}

/// How many generators each degree up to the greatest has.
pub(crate) fn counts_of(alloc: Global, top: u8, degrees: &[u8]) -> Result<Vec<u32>, AllocError>
    requires { length degrees.now ≤ most_generators }
    ensures { IfOk result (λ counts. AreCounts degrees.now top counts.items) }
{
    let mut counts = Vec::from_elem(alloc, 0u32, top as usize + 1)?;
    for place in 0..degrees.len() {
        let degree = degrees[place] as usize;
        if degree < counts.len() {
            counts[degree] += 1;
        }
    }
    Ok(counts)
}

/// At each place the sum of the numbers before it.
pub(crate) fn sums_before(alloc: Global, numbers: &[u32]) -> Result<Vec<u32>, AllocError>
    requires { sum numbers.now < 2 ^ 32 }
    ensures { IfOk result (λ sums. AreSumsBefore numbers.now (length numbers.now) sums.items) }
{
    let mut sums = Vec::with_capacity(alloc, numbers.len())?;
    let mut before = 0;
    for number in numbers {
        sums.push(before)?;
        before += *number;
    }
    Ok(sums)
}

// How many of the degrees are this one.
fn count_degree(degrees: &[u8], degree: u8) -> u32
    requires { length degrees.now < 2 ^ 32 }
    ensures value { result ≡ count_in degrees.now degree }
    ensures few { result ≤ length degrees.now }
{
    let mut count = 0;
    for place in 0..degrees.len() {
        if degrees[place] == degree {
            count += 1;
        }
    }
    count
}

// The number of a generator in its degree, from 1 on.
fn number_in_degree(degrees: &[u8], generator: u32) -> u32
    requires short { length degrees.now < 2 ^ 32 }
    requires inside { generator < length degrees.now }
    ensures { result ≡ number_in_degree degrees.now generator }
{
    let place = generator as usize;
    count_degree(&degrees[..place], degrees[place]) + 1
}

/// A fault of a complex with these degrees in the words of its file.
pub(crate) fn complex_fault(degrees: &[u8], fault: ComplexFault) -> ChainFault
    requires short { length degrees.now < 2 ^ 32 }
    requires within { IsWithin (length degrees.now) fault }
    ensures { result ≡ in_words degrees.now fault }
{
    match fault {
        ComplexFault::NotZero {
            generator,
            at,
            value,
        } => ChainFault::NotComplex {
            degree: degrees[generator as usize],
            generator: number_in_degree(degrees, generator),
            at: number_in_degree(degrees, at),
            value,
        },
        ComplexFault::BadDegree { .. } => unreachable!(),
        ComplexFault::NoMemory => ChainFault::NoMemory,
    }
}
