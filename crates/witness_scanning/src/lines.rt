//! Whole lines at the front of a text.
ghost use Rattle.std.specs.Prelude.{◌≡◌, false, MatchOption, IfOk};
ghost use Rattle.std.specs.Char.{is_ascii_digit};
ghost use Rattle.witness_scanning.specs.Lines.{HasChainLine, HasNoChainLine, HasNumberBefore, HasNoNumberBefore, HasVertexLine, HasNoVertexLine, HasDegree, HasNoDegree, HasRowLine, HasNoRowLine, HasCycleLine, HasNoCycleLine};

use crate::fronts::{after, after_front, after_word};
use crate::numbers::{marked_number, value};
use crate::terms::{chain, entries};
use std::alloc::{AllocError, Global};

/// The terms of the line of this word, these numbers and a chain, each number as far as it counts,
/// and what stands behind the line; none where no such line stands at the front.
pub fn chain_line<'a>(
    alloc: Global,
    bytes: &'a [u8],
    word: &[u8],
    numbers: &[u32],
    modulus: u16,
) -> Result<Option<(Vec<(u32, u16)>, &'a [u8])>, AllocError>
    ensures { IfOk result (λ read. MatchOption read
        (HasNoChainLine word.now numbers.now modulus bytes.now)
        (λ r. HasChainLine word.now numbers.now modulus bytes.now r.0.items r.1.now)) }
{
    let Some(behind) = after_front(bytes, word, numbers, b":") else {
        return Ok(None);
    };
    match chain(alloc, behind, modulus)? {
        Some((terms, rest)) => Ok(Some((terms, rest))),
        None => Ok(None),
    }
}

/// The entries of the row of the matrix of this degree, and what stands behind the line; none where
/// no row of so many entries below the modulus stands at the front.
pub fn row_line(
    alloc: Global,
    bytes: &[u8],
    degree: u32,
    width: u32,
    modulus: u16,
) -> Result<Option<(Vec<u16>, &[u8])>, AllocError>
    ensures { IfOk result (λ read. MatchOption read (HasNoRowLine degree width modulus bytes.now)
        (λ r. HasRowLine degree width modulus bytes.now r.0.items r.1.now)) }
{
    let Some(behind) = after_front(bytes, b"m", &[degree], b":") else {
        return Ok(None);
    };
    match entries(alloc, behind, width, modulus)? {
        Some((row, rest)) => Ok(Some((row, rest))),
        None => Ok(None),
    }
}

// The number between a space and a mark at the front, as far as it counts, and what stands behind
// the mark.
fn number_before(bytes: &[u8], mark: u8) -> Option<(u32, &[u8])>
    requires { is_ascii_digit mark ≡ false }
    ensures { MatchOption result (HasNoNumberBefore mark bytes.now)
        (λ read. HasNumberBefore mark bytes.now read.0 read.1.now) }
{
    let Some((digits, behind)) = marked_number(bytes, b' ') else {
        return None;
    };
    let Some(rest) = after(behind, &[mark]) else {
        return None;
    };
    Some((value(digits), rest))
}

/// The vertex that the line of the cell of this number names, as far as it counts, and what stands
/// behind the line; none where no such line stands at the front.
pub fn vertex_line(bytes: &[u8], number: u32) -> Option<(u32, &[u8])>
    ensures { MatchOption result (HasNoVertexLine number bytes.now)
        (λ read. HasVertexLine number bytes.now read.0 read.1.now) }
{
    let Some(behind) = after_word(bytes, b"v", &[number]) else {
        return None;
    };
    let Some((vertex, rest)) = number_before(behind, b'\n') else {
        return None;
    };
    Some((vertex, rest))
}

// The degree at the head of the line of a cycle, from `low` to `top`, and what stands behind the
// colon.
fn cycle_degree(bytes: &[u8], low: u8, top: u8) -> Option<(u8, &[u8])>
    ensures { MatchOption result (HasNoDegree low top bytes.now)
        (λ read. HasDegree low top bytes.now read.0 read.1.now) }
{
    let Some(behind) = after(bytes, b"z") else {
        return None;
    };
    let Some((degree, rest)) = number_before(behind, b':') else {
        return None;
    };
    if degree < u32::from(low) || degree > u32::from(top) {
        return None;
    }
    Some((degree as u8, rest))
}

/// The degree of the line of a cycle, from `low` to `top`, its terms, each number as far as it
/// counts, and what stands behind the line; none where no such line stands at the front.
pub fn cycle_line(
    alloc: Global,
    bytes: &[u8],
    low: u8,
    top: u8,
    modulus: u16,
) -> Result<Option<(u8, Vec<(u32, u16)>, &[u8])>, AllocError>
    ensures { IfOk result (λ read. MatchOption read (HasNoCycleLine low top modulus bytes.now)
        (λ r. HasCycleLine low top modulus bytes.now r.0 r.1.items r.2.now)) }
{
    let Some((degree, behind)) = cycle_degree(bytes, low, top) else {
        return Ok(None);
    };
    match chain(alloc, behind, modulus)? {
        Some((terms, rest)) => Ok(Some((degree, terms, rest))),
        None => Ok(None),
    }
}
