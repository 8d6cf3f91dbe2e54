//! The lines on maps: their ranks and their matrices.
ghost use Rattle.std.specs.Prelude.{◌≡◌, ◌++◌, OnOk, [], map, get_or};
ghost use Rattle.std.specs.List.{flat_map};
ghost use Rattle.report.specs.ReportText.{entry_text, row_line, rank_line, map_degree_lines, map_lines_from, map_text, shown_rows};

use crate::index_lines::put_wanted;
use crate::lines::put_pair;
use crate::{MapReport, Rows, Shown};
use itoa::Buffer;
use std::alloc::AllocError as NoMemory;

/// Adds the parts of the report on a map.
pub(crate) fn put_map(to: &mut Vec<u8>, shown: &Shown, map: &MapReport) -> Result<(), NoMemory>
    ensures { OnOk result (to.new.items ≡ to.old.items ++ map_text map.now shown.now) }
{
    to.extend_from_slice(b"domain\n")?;
    put_pair(to, shown, &map.domain)?;
    to.extend_from_slice(b"range\n")?;
    put_pair(to, shown, &map.range)?;
    to.extend_from_slice(b"map\n")?;
    put_ranks(to, shown, map.ranks.as_slice(), map.matrices.as_slice())?;
    put_wanted(to, shown, &map.index)
}

// Adds the lines on the map in each degree: its rank, and its matrix where that is shown.
fn put_ranks(
    to: &mut Vec<u8>,
    shown: &Shown,
    ranks: &[u32],
    matrices: &[Rows],
) -> Result<(), NoMemory>
    ensures { OnOk result (to.new.items ≡ to.old.items
        ++ map_lines_from shown.now 0 ranks.now matrices.now) }
{
    for (degree, rank) in ranks.iter().enumerate() {
        let rows = rows_in(matrices, degree);
        put_map_degree(to, shown, b"F", degree, *rank, rows)?;
    }
    Ok(())
}

// The rows of a degree; there are none past the last matrix.
pub(crate) fn rows_in(matrices: &[Rows], degree: usize) -> &[Vec<u16>]
    ensures { map (λ row. row.items) result.now ≡ get_or matrices.now degree [] }
{
    match matrices.get(degree) {
        Some(rows) => rows.as_slice(),
        None => &[],
    }
}

// Adds the lines on a map of this letter in one degree.
pub(crate) fn put_map_degree(
    to: &mut Vec<u8>,
    shown: &Shown,
    letter: &[u8],
    degree: usize,
    rank: u32,
    rows: &[Vec<u16>],
) -> Result<(), NoMemory>
    ensures { OnOk result (to.new.items ≡ to.old.items
        ++ map_degree_lines shown.now letter.now degree rank (map (λ row. row.items) rows.now)) }
{
    put_rank_line(to, letter, degree, rank)?;
    put_shown_rows(to, shown, rows)
}

// Adds the line on one rank.
pub(crate) fn put_rank_line(
    to: &mut Vec<u8>,
    letter: &[u8],
    degree: usize,
    rank: u32,
) -> Result<(), NoMemory>
    ensures { OnOk result (to.new.items ≡ to.old.items ++ rank_line letter.now degree rank) }
{
    let mut buffer = Buffer::new();
    to.extend_from_slice(letter)?;
    to.extend_from_slice(b"_")?;
    to.extend_from_slice(buffer.format(degree).as_bytes())?;
    to.extend_from_slice(b" rank ")?;
    to.extend_from_slice(buffer.format(rank).as_bytes())?;
    to.extend_from_slice(b"\n")
}

// Adds the lines on the rows of one matrix, where they are shown.
pub(crate) fn put_shown_rows(
    to: &mut Vec<u8>,
    shown: &Shown,
    rows: &[Vec<u16>],
) -> Result<(), NoMemory>
    ensures { OnOk result (to.new.items ≡ to.old.items
        ++ flat_map row_line (shown_rows shown.now (map (λ row. row.items) rows.now))) }
{
    if !shown.matrix {
        return Ok(());
    }
    put_rows(to, rows)
}

// Adds the lines on the rows of one matrix.
fn put_rows(to: &mut Vec<u8>, rows: &[Vec<u16>]) -> Result<(), NoMemory>
    ensures { OnOk result (to.new.items ≡ to.old.items
        ++ flat_map row_line (map (λ row. row.items) rows.now)) }
{
    for row in rows {
        put_row(to, row)?;
    }
    Ok(())
}

// Adds the line on one row; there is none where it has no entries.
fn put_row(to: &mut Vec<u8>, row: &[u16]) -> Result<(), NoMemory>
    ensures { OnOk result (to.new.items ≡ to.old.items ++ row_line row.now) }
{
    if row.is_empty() {
        return Ok(());
    }
    to.extend_from_slice(b" ")?;
    put_entries(to, row)?;
    to.extend_from_slice(b"\n")
}

// Adds the entries of a row, each behind a space.
fn put_entries(to: &mut Vec<u8>, row: &[u16]) -> Result<(), NoMemory>
    ensures { OnOk result (to.new.items ≡ to.old.items ++ flat_map entry_text row.now) }
{
    for entry in row {
        put_entry(to, *entry)?;
    }
    Ok(())
}

// Adds an entry behind a space.
fn put_entry(to: &mut Vec<u8>, entry: u16) -> Result<(), NoMemory>
    ensures { OnOk result (to.new.items ≡ to.old.items ++ entry_text entry) }
{
    let mut buffer = Buffer::new();
    to.extend_from_slice(b" ")?;
    to.extend_from_slice(buffer.format(entry).as_bytes())
}
