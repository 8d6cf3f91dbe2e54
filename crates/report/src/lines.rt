//! The lines on homology groups, on the cycles of their bases, and on counts.
ghost use Rattle.std.specs.Prelude.{◌≡◌, ◌++◌, OnOk, [], get_or};
ghost use Rattle.report.specs.ReportText.{group_text, group_line, cycle_line, cycle_lines, degree_lines, group_lines, shown_cycles, count_line, count_lines, shown_counts, pair_lines};

use crate::{Cycles, PairReport, Shown};
use faults::{Generator, Terms, put_chain};
use itoa::Buffer;
use std::alloc::AllocError as NoMemory;

/// Adds the lines on a pair.
pub(crate) fn put_pair(to: &mut Vec<u8>, shown: &Shown, pair: &PairReport) -> Result<(), NoMemory>
    ensures { OnOk result (to.new.items ≡ to.old.items ++ pair_lines pair.now shown.now) }
{
    put_groups(to, shown, pair.dimensions.as_slice(), &pair.cycles)?;
    put_shown_counts(to, shown, pair)
}

/// Adds the lines on the groups of these dimensions, each with the cycles of its basis where they
/// are shown.
pub(crate) fn put_groups<G: Generator>(
    to: &mut Vec<u8>,
    shown: &Shown,
    dimensions: &[u32],
    cycles: &Cycles<G>,
) -> Result<(), NoMemory>
    ensures { OnOk result (to.new.items ≡ to.old.items ++ group_lines G.text shown.now.modulus
        dimensions.now (shown_cycles shown.now cycles.now)) }
{
    for (degree, dimension) in dimensions.iter().enumerate() {
        let printed = printed_in(shown, cycles, degree);
        put_degree(to, shown.modulus, degree, *dimension, printed)?;
    }
    Ok(())
}

// The cycles of a degree that are printed.
fn printed_in<'a, G>(shown: &Shown, cycles: &'a Cycles<G>, degree: usize) -> &'a [Terms<G>]
    ensures { result.now ≡ get_or (shown_cycles shown.now cycles.now) degree [] }
{
    if !shown.cycles {
        return &[];
    }
    cycles.of_degree(degree)
}

// Adds the lines of one degree.
fn put_degree<G: Generator>(
    to: &mut Vec<u8>,
    modulus: u16,
    degree: usize,
    dimension: u32,
    cycles: &[Terms<G>],
) -> Result<(), NoMemory>
    ensures { OnOk result (to.new.items ≡ to.old.items
        ++ degree_lines G.text modulus degree dimension cycles.now) }
{
    put_group_line(to, modulus, degree, dimension)?;
    put_cycles(to, degree, cycles)
}

// Adds the line on one group.
pub(crate) fn put_group_line(
    to: &mut Vec<u8>,
    modulus: u16,
    degree: usize,
    dimension: u32,
) -> Result<(), NoMemory>
    ensures { OnOk result (to.new.items ≡ to.old.items ++ group_line modulus degree dimension) }
{
    let mut buffer = Buffer::new();
    to.extend_from_slice(b"H_")?;
    to.extend_from_slice(buffer.format(degree).as_bytes())?;
    to.extend_from_slice(b" = ")?;
    put_group(to, modulus, dimension)?;
    to.extend_from_slice(b"\n")
}

// Adds the group of that dimension.
fn put_group(to: &mut Vec<u8>, modulus: u16, dimension: u32) -> Result<(), NoMemory>
    ensures { OnOk result (to.new.items ≡ to.old.items ++ group_text modulus dimension) }
{
    if dimension == 0 {
        return to.extend_from_slice(b"0");
    }
    let mut buffer = Buffer::new();
    to.extend_from_slice(b"Z_")?;
    to.extend_from_slice(buffer.format(modulus).as_bytes())?;
    if dimension == 1 {
        return Ok(());
    }
    to.extend_from_slice(b"^")?;
    to.extend_from_slice(buffer.format(dimension).as_bytes())
}

// Adds the lines on the cycles of one degree.
fn put_cycles<G: Generator>(
    to: &mut Vec<u8>,
    degree: usize,
    cycles: &[Terms<G>],
) -> Result<(), NoMemory>
    ensures { OnOk result (to.new.items ≡ to.old.items ++ cycle_lines G.text degree cycles.now) }
{
    for (place, cycle) in cycles.iter().enumerate() {
        put_cycle_line(to, degree, place + 1, cycle)?;
    }
    Ok(())
}

// Adds the line on one cycle.
fn put_cycle_line<G: Generator>(
    to: &mut Vec<u8>,
    degree: usize,
    number: usize,
    cycle: &Terms<G>,
) -> Result<(), NoMemory>
    ensures { OnOk result (to.new.items ≡ to.old.items
        ++ cycle_line G.text degree number cycle.now) }
{
    let mut buffer = Buffer::new();
    to.extend_from_slice(b"z_")?;
    to.extend_from_slice(buffer.format(degree).as_bytes())?;
    to.extend_from_slice(b"_")?;
    to.extend_from_slice(buffer.format(number).as_bytes())?;
    to.extend_from_slice(b" = ")?;
    put_chain(to, cycle)?;
    to.extend_from_slice(b"\n")
}

// Adds the lines on the counts of a pair, where they are shown.
fn put_shown_counts(to: &mut Vec<u8>, shown: &Shown, pair: &PairReport) -> Result<(), NoMemory>
    ensures { OnOk result (to.new.items ≡ to.old.items ++ shown_counts shown.now pair.now) }
{
    if !shown.stats {
        return Ok(());
    }
    put_counts(to, pair)
}

// Adds the lines on the counts of a pair.
fn put_counts(to: &mut Vec<u8>, pair: &PairReport) -> Result<(), NoMemory>
    ensures { OnOk result (to.new.items ≡ to.old.items ++ count_lines pair.now) }
{
    put_count(to, b"cells", pair.cells as usize)?;
    put_count(to, b"grown", pair.grown.len())?;
    put_count(to, b"left", pair.left.len())
}

// Adds the line on one count.
fn put_count(to: &mut Vec<u8>, name: &[u8], count: usize) -> Result<(), NoMemory>
    ensures { OnOk result (to.new.items ≡ to.old.items ++ count_line name.now count) }
{
    let mut buffer = Buffer::new();
    to.extend_from_slice(name)?;
    to.extend_from_slice(b" ")?;
    to.extend_from_slice(buffer.format(count).as_bytes())?;
    to.extend_from_slice(b"\n")
}
