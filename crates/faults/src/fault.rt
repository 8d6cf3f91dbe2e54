//! Why a run did not print its report, and the line that it prints then.
ghost use Rattle.std.specs.Prelude.{◌≡◌, ◌++◌, IfOk, OnOk};
ghost use Rattle.faults.specs.FaultText.{fault_text};

use crate::index_lines::{not_included_text, not_invertible_text};
use crate::map_lines::{empty_value_text, leaves_text, not_acyclic_text, undefined_text};
use crate::{Cause, CellChain, Law, LimitName, Name};
use elem_cubes::Cell;
use itoa::{Buffer, Integer};
use std::alloc::{AllocError as NoMemory, Global};
use thiserror::Error;

/// Why a run did not print its report. The line that a run prints for it is `fault_text`.
#[derive(Debug, Drop, Error)]
pub enum Fault {
    /// There is no first word, or it names no tool.
    #[error("words: no tool of that name")]
    NoTool,
    /// The words after the tool's name are not of a form of that tool.
    #[error("words: not a form of {tool}")]
    NotAForm {
        tool: Name,
    },
    /// A read of a file failed.
    #[error("cannot read {name}")]
    CannotRead {
        name: Name,
    },
    /// The text of a file is refused at a place, counted in bytes from 0.
    #[error("{name}: byte {place}: {cause}")]
    BadText {
        name: Name,
        place: u64,
        cause: Cause,
    },
    /// In a chain file the boundary of the boundary of a generator of this degree has a coefficient
    /// that is not 0 at another generator. Generators are numbered in their degrees from 1.
    #[error("{name}: dimension {degree}: # {generator}: boundary of boundary has {value} * {at}")]
    NotComplex {
        name: Name,
        degree: u8,
        generator: u32,
        value: u16,
        at: u32,
    },
    /// The cells of a file have another embedding dimension than those of the files before it.
    #[error("{name}: dimension {found}, but {before} before")]
    Dimension {
        name: Name,
        found: u8,
        before: u8,
    },
    /// A count goes past its limit, which is this number.
    #[error("limit: {count}: {number}")]
    Limit {
        count: LimitName,
        number: u64,
    },
    /// A map has no value at this full cube of its domain.
    #[error("map: no value at a cube")]
    Undefined {
        cube: Cell,
    },
    /// This value of a map at a full cube is not in the range.
    #[error("map: a value leaves the range")]
    LeavesRange {
        cube: Cell,
        value: Cell,
    },
    /// This value of a map at a full cube of the domain's subset is not in the range's subset.
    #[error("map: a value leaves the range's subset")]
    LeavesSubset {
        cube: Cell,
        value: Cell,
    },
    /// The value of a map at this cell is empty.
    #[error("map: a value is empty")]
    EmptyValue {
        cell: Cell,
    },
    /// The value of a map at this cell is not acyclic, in this degree first: in it there are a
    /// cycle and a cocycle whose product is 1. They are one such pair of many.
    #[error("map: a value is not acyclic in degree {degree}")]
    NotAcyclic {
        cell: Cell,
        degree: u8,
        cycle: CellChain,
        cocycle: CellChain,
    },
    /// This full cube of a map's domain is not in its range.
    #[error("index: a cube is not in the range")]
    NotInRange {
        cube: Cell,
    },
    /// This full cube of the subset of a map's domain is not in that of its range.
    #[error("index: a cube is not in the range's subset")]
    NotInSubset {
        cube: Cell,
    },
    /// The inclusion of a map's domain in its range is not invertible in this degree: it sends this
    /// cycle of the domain's pair, which is not null, to a null chain. It is one of many.
    #[error("index: a cycle is killed in degree {degree}")]
    Killed {
        degree: u8,
        chain: CellChain,
    },
    /// The inclusion of a map's domain in its range is not invertible in this degree: this cocycle
    /// of the range's pair is 0 on all cycles of the domain's, and not on all of its own. It is one
    /// of many.
    #[error("index: a cocycle is missed in degree {degree}")]
    Missed {
        degree: u8,
        chain: CellChain,
    },
    /// A law fails on a line of a witness file, counted from 1.
    #[error("{name}: line {line}: {law}")]
    LawFails {
        name: Name,
        line: u64,
        law: Law,
    },
    /// A write to standard output failed.
    #[error("cannot write standard output")]
    CannotWriteOut,
    /// A write of a file failed.
    #[error("cannot write {name}")]
    CannotWrite {
        name: Name,
    },
    /// Memory ran out.
    #[error("out of memory")]
    OutOfMemory,
}

impl From<NoMemory> for Fault {
    ghost use Rattle.faults.specs.declared.fault.Fault.TheVariants.{OutOfMemory};

    ghost from_gives = { λ _ fault. fault ≡ OutOfMemory };

    fn from(_: NoMemory) -> Fault {
        Fault::OutOfMemory
    }
}

/// The line that is printed for a fault, with its line feed.
pub fn fault_text(alloc: Global, fault: &Fault) -> Result<Vec<u8>, NoMemory>
    ensures { IfOk result (λ line. line.items ≡ fault_text fault.now) }
{
    match fault {
        Fault::NoTool => Vec::from_slice(alloc, b"error: words: no tool of that name\n"),
        Fault::NotAForm { tool } => frame(alloc, b"error: words: not a form of ", tool, b"\n"),
        Fault::CannotRead { name } => frame(alloc, b"error: cannot read ", name, b"\n"),
        Fault::BadText { name, place, cause } => bad_text(alloc, name, *place, *cause),
        Fault::NotComplex {
            name,
            degree,
            generator,
            value,
            at,
        } => not_complex_text(alloc, name, *degree, *generator, *value, *at),
        Fault::Dimension {
            name,
            found,
            before,
        } => dimension_text(alloc, name, *found, *before),
        Fault::Limit { count, number } => limit_text(alloc, *count, *number),
        Fault::Undefined { cube } => undefined_text(alloc, cube),
        Fault::LeavesRange { cube, value } => {
            leaves_text(alloc, cube, value, b" leaves the range\n")
        }
        Fault::LeavesSubset { cube, value } => {
            leaves_text(alloc, cube, value, b" leaves the range's subset\n")
        }
        Fault::EmptyValue { cell } => empty_value_text(alloc, cell),
        Fault::NotAcyclic {
            cell,
            degree,
            cycle,
            cocycle,
        } => not_acyclic_text(alloc, cell, *degree, cycle, cocycle),
        Fault::NotInRange { cube } => not_included_text(alloc, cube, b" is not in the range\n"),
        Fault::NotInSubset { cube } => {
            not_included_text(alloc, cube, b" is not in the range's subset\n")
        }
        Fault::Killed { degree, chain } => {
            not_invertible_text(alloc, *degree, b": killed: ", chain)
        }
        Fault::Missed { degree, chain } => {
            not_invertible_text(alloc, *degree, b": missed: ", chain)
        }
        Fault::LawFails { name, line, law } => law_text(alloc, name, *line, *law),
        Fault::CannotWriteOut => Vec::from_slice(alloc, b"error: cannot write standard output\n"),
        Fault::CannotWrite { name } => frame(alloc, b"error: cannot write ", name, b"\n"),
        Fault::OutOfMemory => Vec::from_slice(alloc, b"error: out of memory\n"),
    }
}

// A name between two texts.
fn frame(alloc: Global, before: &[u8], name: &Name, after: &[u8]) -> Result<Vec<u8>, NoMemory>
    ensures { IfOk result (λ line. line.items ≡ before.now ++ name.now ++ after.now) }
{
    let mut line = Vec::from_slice(alloc, before)?;
    line.extend_from_slice(name.as_str().as_bytes())?;
    line.extend_from_slice(after)?;
    Ok(line)
}

// Adds a text and a number.
pub(crate) fn put_after<I: Integer>(
    to: &mut Vec<u8>,
    before: &[u8],
    number: I,
) -> Result<(), NoMemory>
    ensures { OnOk result (to.new.items ≡ to.old.items ++ (before.now ++ I.text number)) }
{
    let mut buffer = Buffer::new();
    to.extend_from_slice(before)?;
    to.extend_from_slice(buffer.format(number).as_bytes())
}

// The line on a text that is refused.
fn bad_text(alloc: Global, name: &Name, place: u64, cause: Cause) -> Result<Vec<u8>, NoMemory>
    ensures { IfOk result (λ line. line.items ≡ fault_text (Fault.BadText name.now place cause)) }
{
    let mut line = frame(alloc, b"error: ", name, b": byte ")?;
    put_after(&mut line, b"", place)?;
    line.extend_from_slice(b": ")?;
    line.extend_from_slice(cause.as_str().as_bytes())?;
    line.extend_from_slice(b"\n")?;
    Ok(line)
}

// The line on a boundary of a boundary that is not 0.
fn not_complex_text(
    alloc: Global,
    name: &Name,
    degree: u8,
    generator: u32,
    value: u16,
    at: u32,
) -> Result<Vec<u8>, NoMemory>
    ensures { IfOk result
        (λ line. line.items ≡ fault_text (Fault.NotComplex name.now degree generator value at)) }
{
    let mut line = frame(alloc, b"error: ", name, b": dimension ")?;
    put_after(&mut line, b"", degree)?;
    put_after(&mut line, b": # ", generator)?;
    put_after(&mut line, b": boundary of boundary has ", value)?;
    put_after(&mut line, b" * ", at)?;
    line.extend_from_slice(b"\n")?;
    Ok(line)
}

// The line on two dimensions.
fn dimension_text(alloc: Global, name: &Name, found: u8, before: u8) -> Result<Vec<u8>, NoMemory>
    ensures { IfOk result
        (λ line. line.items ≡ fault_text (Fault.Dimension name.now found before)) }
{
    let mut line = frame(alloc, b"error: ", name, b": dimension ")?;
    put_after(&mut line, b"", found)?;
    put_after(&mut line, b", but ", before)?;
    line.extend_from_slice(b" before\n")?;
    Ok(line)
}

// The line on a limit.
fn limit_text(alloc: Global, count: LimitName, number: u64) -> Result<Vec<u8>, NoMemory>
    ensures { IfOk result (λ line. line.items ≡ fault_text (Fault.Limit count number)) }
{
    let mut line = Vec::from_slice(alloc, b"error: limit: ")?;
    line.extend_from_slice(count.as_str().as_bytes())?;
    put_after(&mut line, b": ", number)?;
    line.extend_from_slice(b"\n")?;
    Ok(line)
}

// The line on a law that fails.
fn law_text(alloc: Global, name: &Name, line: u64, law: Law) -> Result<Vec<u8>, NoMemory>
    ensures { IfOk result (λ text. text.items ≡ fault_text (Fault.LawFails name.now line law)) }
{
    let mut text = frame(alloc, b"error: ", name, b": line ")?;
    put_after(&mut text, b"", line)?;
    text.extend_from_slice(b": ")?;
    text.extend_from_slice(law.as_str().as_bytes())?;
    text.extend_from_slice(b"\n")?;
    Ok(text)
}
