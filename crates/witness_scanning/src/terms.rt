//! Chains and rows at the front of a text.
ghost use Rattle.std.specs.Prelude.{◌≡◌, MatchOption, IfOk};
ghost use Rattle.witness_scanning.specs.Terms.{HasTerm, HasNoTerm, HasNext, HasNoNext, HasChain, HasNoChain, HasEntry, HasNoEntry, HasEntries, HasNoEntries};

use crate::fronts::after;
use crate::numbers::{is_above, marked_number, value};
use std::alloc::{AllocError, Global};

// The coefficient of the term at the front, the digits of its number, and what stands behind it.
fn term(bytes: &[u8], modulus: u16) -> Option<(u16, &[u8], &[u8])>
    ensures { MatchOption result (HasNoTerm modulus bytes.now)
        (λ read. HasTerm modulus bytes.now read.0 read.1.now read.2.now) }
{
    let Some((coefficient, behind)) = marked_number(bytes, b' ') else {
        return None;
    };
    let Some((number, rest)) = marked_number(behind, b'*') else {
        return None;
    };
    let coefficient = value(coefficient);
    if coefficient == 0 || coefficient >= u32::from(modulus) {
        return None;
    }
    Some((coefficient as u16, number, rest))
}

// The same, where the number is above the last one.
fn next_term<'a>(bytes: &'a [u8], last: &[u8], modulus: u16) -> Option<(u16, &'a [u8], &'a [u8])>
    ensures { MatchOption result (HasNoNext modulus last.now bytes.now)
        (λ read. HasNext modulus last.now bytes.now read.0 read.1.now read.2.now) }
{
    let Some((coefficient, number, rest)) = term(bytes, modulus) else {
        return None;
    };
    if is_above(last, number) {
        Some((coefficient, number, rest))
    } else {
        None
    }
}

/// The terms up to the end of the line, each number as far as it counts, and what stands behind
/// the line; none where the line does not end with a chain.
pub(crate) fn chain(
    alloc: Global,
    bytes: &[u8],
    modulus: u16,
) -> Result<Option<(Vec<(u32, u16)>, &[u8])>, AllocError>
    ensures { IfOk result (λ read. MatchOption read (HasNoChain modulus bytes.now)
        (λ r. HasChain modulus bytes.now r.0.items r.1.now)) }
{
    let mut terms = Vec::new(alloc);
    let mut last: &[u8] = &[];
    let mut rest = bytes;
    while let Some((coefficient, number, behind)) = next_term(rest, last, modulus) {
        terms.push((value(number), coefficient))?;
        last = number;
        rest = behind;
    }
    match after(rest, b"\n") {
        Some(behind) => Ok(Some((terms, behind))),
        None => Ok(None),
    }
}

// The number below the modulus at the front, and what stands behind it.
fn entry(bytes: &[u8], modulus: u16) -> Option<(u16, &[u8])>
    ensures { MatchOption result (HasNoEntry modulus bytes.now)
        (λ read. HasEntry modulus bytes.now read.0 read.1.now) }
{
    let Some((digits, rest)) = marked_number(bytes, b' ') else {
        return None;
    };
    let entry = value(digits);
    if entry >= u32::from(modulus) {
        return None;
    }
    Some((entry as u16, rest))
}

/// So many numbers below the modulus up to the end of the line, and what stands behind the line.
pub(crate) fn entries(
    alloc: Global,
    bytes: &[u8],
    width: u32,
    modulus: u16,
) -> Result<Option<(Vec<u16>, &[u8])>, AllocError>
    ensures { IfOk result (λ read. MatchOption read (HasNoEntries modulus width bytes.now)
        (λ r. HasEntries modulus width bytes.now r.0.items r.1.now)) }
{
    let mut entries = Vec::new(alloc);
    let mut rest = bytes;
    while entries.len() < width as usize {
        let Some((number, behind)) = entry(rest, modulus) else {
            return Ok(None);
        };
        entries.push(number)?;
        rest = behind;
    }
    match after(rest, b"\n") {
        Some(behind) => Ok(Some((entries, behind))),
        None => Ok(None),
    }
}
