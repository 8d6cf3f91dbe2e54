//! The lines of matrices.
ghost use Rattle.std.specs.Prelude.{◌≡◌, ◌+◌, ◌<◌, ◌≤◌, ◌^◌, length, IfOk, IfErr};
ghost use Rattle.witness_testing.specs.Sides.{HasRowWitness, RowLinesPassed, IsRowLineFault};
ghost use Rattle.witness_testing.specs.Sides.{lines_in, all_rows};

use cell_complex::Numbered;
use chains::Chain;
use field_mod::Field;
use read_parts::ReadMap;
use std::alloc::Global;
use witness_rows::{products, test_rows};
use witness_sections::{cocycles_beside, cycles_beside};
use witness_types::{PairPart, WitnessFault};

// The lines of the matrix of one degree: the number of the line behind them, or the first that is
// not that of the products. The images are given over the relative cells of the range.
fn test_degree<const P: u16>(
    alloc: Global,
    field: Field<P>,
    domain: &Numbered,
    range: &Numbered,
    kept: &Numbered,
    images: &[Chain<P>],
    top: u8,
    part: &PairPart<P>,
    map: &ReadMap<P>,
    degree: u8,
    line: u64,
) -> Result<u64, WitnessFault>
    requires witness { HasRowWitness domain.now range.now kept.now images.now top part.now
        map.now }
    requires degree { degree ≤ top }
    requires few { length part.now.cycles.items < 2 ^ 32 }
    requires room { line ≤ 2 ^ 60 }
    ensures ok { IfOk result (RowLinesPassed domain.now range.now kept.now images.now top part.now
        map.now (lines_in degree) line) }
    ensures next { IfOk result (λ next. next ≤ line + 2 ^ 32) }
    ensures err { IfErr result (IsRowLineFault domain.now range.now kept.now images.now top
        part.now map.now (lines_in degree) line) }
{
    let table = &map.rows[degree as usize];
    let cycles = cycles_beside(alloc, field, domain, domain, &part.cycles, degree)?;
    if cycles.is_empty() || table.rows() == 0 {
        return Ok(line);
    }
    let rows = products(alloc, field, images, &cycles, kept.len())?;
    let cocycles = cocycles_beside(
        alloc,
        field,
        range,
        kept,
        &map.range.cycles,
        &map.range.cocycles,
        degree,
    )?;
    let next = test_rows(alloc, field, table, &rows, &cocycles, line)?;
    Ok(next)
}

/// The lines of the matrices, of which the first has this number: the number of the line behind
/// them, or the first that is not that of the products.
pub(crate) fn test_matrices<const P: u16>(
    alloc: Global,
    field: Field<P>,
    domain: &Numbered,
    range: &Numbered,
    kept: &Numbered,
    images: &[Chain<P>],
    top: u8,
    part: &PairPart<P>,
    map: &ReadMap<P>,
    line: u64,
) -> Result<u64, WitnessFault>
    requires witness { HasRowWitness domain.now range.now kept.now images.now top part.now
        map.now }
    requires few { length part.now.cycles.items < 2 ^ 32 }
    requires room { line ≤ 2 ^ 50 }
    ensures ok { IfOk result (RowLinesPassed domain.now range.now kept.now images.now top part.now
        map.now all_rows line) }
    ensures err { IfErr result (IsRowLineFault domain.now range.now kept.now images.now top
        part.now map.now all_rows line) }
{
    let mut next = line;
    for degree in 0..u16::from(top) + 1 {
        next = test_degree(
            alloc,
            field,
            domain,
            range,
            kept,
            images,
            top,
            part,
            map,
            degree as u8,
            next,
        )?;
    }
    Ok(next)
}
