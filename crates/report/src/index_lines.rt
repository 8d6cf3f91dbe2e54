//! The lines on index matrices and on their Leray splittings.
ghost use Rattle.std.specs.Prelude.{◌≡◌, ◌++◌, OnOk, [], map, get_or};
ghost use Rattle.report.specs.ReportText.{size_line, reduced_of, index_degree_lines, index_lines_from, index_text, wanted_text};

use crate::map_lines::{put_map_degree, put_shown_rows, rows_in};
use crate::{IndexPart, LerayRows, Rows, Shown};
use itoa::Buffer;
use std::alloc::AllocError as NoMemory;

/// Adds the lines on index matrices, where they are wanted.
pub(crate) fn put_wanted(
    to: &mut Vec<u8>,
    shown: &Shown,
    index: &Option<IndexPart>,
) -> Result<(), NoMemory>
    ensures { OnOk result (to.new.items ≡ to.old.items ++ wanted_text index.now shown.now) }
{
    match index {
        Some(index) => put_index(to, shown, index),
        None => Ok(()),
    }
}

// Adds the lines on index matrices.
fn put_index(to: &mut Vec<u8>, shown: &Shown, index: &IndexPart) -> Result<(), NoMemory>
    ensures { OnOk result (to.new.items ≡ to.old.items ++ index_text index.now shown.now) }
{
    let ranks = index.ranks.as_slice();
    to.extend_from_slice(b"index\n")?;
    put_degrees(
        to,
        shown,
        ranks,
        index.matrices.as_slice(),
        index.leray.as_slice(),
    )
}

// Adds the lines on the index matrices of all degrees.
fn put_degrees(
    to: &mut Vec<u8>,
    shown: &Shown,
    ranks: &[u32],
    matrices: &[Rows],
    leray: &[LerayRows],
) -> Result<(), NoMemory>
    ensures { OnOk result (to.new.items ≡ to.old.items
        ++ index_lines_from shown.now 0 ranks.now matrices.now (reduced_of leray.now)) }
{
    for (degree, rank) in ranks.iter().enumerate() {
        let rows = rows_in(matrices, degree);
        let reduced = reduced_in(leray, degree);
        put_degree(to, shown, degree, *rank, rows, reduced)?;
    }
    Ok(())
}

// The rows of the reduced Leray matrix of a degree; there are none past the last.
fn reduced_in(leray: &[LerayRows], degree: usize) -> &[Vec<u16>]
    ensures { map (λ row. row.items) result.now ≡ get_or (reduced_of leray.now) degree [] }
{
    match leray.get(degree) {
        Some(splitting) => splitting.reduced.as_slice(),
        None => &[],
    }
}

// Adds the lines on an index matrix, and on its reduced Leray matrix.
fn put_degree(
    to: &mut Vec<u8>,
    shown: &Shown,
    degree: usize,
    rank: u32,
    rows: &[Vec<u16>],
    reduced: &[Vec<u16>],
) -> Result<(), NoMemory>
    ensures { OnOk result (to.new.items ≡ to.old.items ++ index_degree_lines shown.now degree rank
        (map (λ row. row.items) rows.now) (map (λ row. row.items) reduced.now)) }
{
    put_map_degree(to, shown, b"N", degree, rank, rows)?;
    put_size(to, degree, reduced.len())?;
    put_shown_rows(to, shown, reduced)
}

// Adds the line on the size of a reduced Leray matrix.
fn put_size(to: &mut Vec<u8>, degree: usize, size: usize) -> Result<(), NoMemory>
    ensures { OnOk result (to.new.items ≡ to.old.items ++ size_line degree size) }
{
    let mut buffer = Buffer::new();
    to.extend_from_slice(b"L_")?;
    to.extend_from_slice(buffer.format(degree).as_bytes())?;
    to.extend_from_slice(b" = ")?;
    to.extend_from_slice(buffer.format(size).as_bytes())?;
    to.extend_from_slice(b"\n")
}
