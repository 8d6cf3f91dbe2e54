//! The cell of a cube whose corners are whole.
ghost use Rattle.std.specs.Prelude.{◌≡◌, ◌≤◌, ◌<◌, ◌^◌, max, List, ℤ, Option, Some, None, length, true, IfSome, IfOk, IsTrue, Ok, if◌then◌else◌};
ghost use Rattle.std.specs.List.{list_all};
ghost use Rattle.std.specs.Option.{option_map};
ghost use Rattle.elem_cubes.specs.Corners.{is_file_end};
ghost use Rattle.elem_cubes.specs.Cells.{Factor, point, interval, factor_of, full_cell, cell_of, is_file_factor};
ghost use Rattle.grid_files.specs.Items.{fits_corner, is_full_end, cell_between, factor_between};
ghost use Rattle.grid_files.specs.Corners.{IsCorner, IsCellOf};

use crate::corner::OpenCorner;
use crate::fault::TextCause;
use elem_cubes::{Cell, Corner, MAX_EMBEDDING};

/// The full cube with this lower corner.
pub fn full_cube(corner: &OpenCorner) -> Result<Cell, TextCause>
    ensures ok { IfOk result (λ cell. IsTrue (list_all is_file_factor cell)) }
    ensures cell { (xs : List ℤ) → IsCorner corner.now xs → fits_corner is_full_end xs ≡ true
        → IsCellOf (length xs) (Some (full_cell xs)) result }
{
    if corner.count > MAX_EMBEDDING {
        return Err(TextCause::DimensionTooLarge);
    }
    let Some(lower) = Corner::of(&corner.numbers[..corner.count]) else {
        return Err(TextCause::NotElementary);
    };
    in_range(Cell::full(&lower))
}

// The cell, where there is one in the range of the files.
fn in_range(cell: Option<Cell>) -> Result<Cell, TextCause>
    ensures ok { IfOk result (λ cell. IsTrue (list_all is_file_factor cell)) }
    ensures cell { (q : List Factor)
        → cell ≡ Some q → list_all is_file_factor q ≡ true → result ≡ Ok q }
{
    match cell {
        Some(cell) if cell.in_range() => Ok(cell),
        _ => Err(TextCause::NotElementary),
    }
}

/// The elementary cube with these corners.
pub(crate) fn cube_between(lower: &OpenCorner, upper: &OpenCorner) -> Result<Cell, TextCause>
    ensures ok { IfOk result (λ cell. IsTrue (list_all is_file_factor cell)) }
    ensures cell { (ls us : List ℤ) → IsCorner lower.now ls → IsCorner upper.now us
        → fits_corner is_file_end ls ≡ true → fits_corner is_file_end us ≡ true
        → IsCellOf (max (length ls) (length us)) (cell_between ls us) result }
{
    if lower.count > MAX_EMBEDDING || upper.count > MAX_EMBEDDING {
        return Err(TextCause::DimensionTooLarge);
    }
    if lower.count != upper.count {
        return Err(TextCause::NotElementary);
    }
    let lows = &lower.numbers[..lower.count];
    let Some(axes) = axes_between(lows, &upper.numbers[..upper.count]) else {
        return Err(TextCause::NotElementary);
    };
    let Some(corner) = Corner::of(lows) else {
        return Err(TextCause::NotElementary);
    };
    in_range(Cell::new(corner, axes))
}

// The axes along which the upper ends are one above the lower ones, where the other ends are equal.
fn axes_between(lows: &[i32], highs: &[i32]) -> Option<u8>
    requires same { length lows.now ≡ length highs.now }
    requires few { length lows.now ≤ MAX_EMBEDDING }
    ensures axes { option_map (cell_of lows.now) result ≡ cell_between lows.now highs.now }
    ensures few { IfSome result (λ axes. axes < 2 ^ length lows.now) }
{
    let mut axes: u8 = 0;
    let mut i = lows.len();
    while i > 0 {
        i -= 1;
        let wide = is_wide_between(lows[i], highs[i])?;
        axes = axes * 2 + bit(wide);
    }
    Some(axes)
}

// Whether the factor between two ends is an interval, or a point; nothing where there is none.
fn is_wide_between(low: i32, high: i32) -> Option<bool>
    ensures { option_map (λ wide. factor_of wide low) result ≡ factor_between low high }
{
    if low == high {
        Some(false)
    } else if i64::from(low) + 1 == i64::from(high) {
        Some(true)
    } else {
        None
    }
}

fn bit(wide: bool) -> u8
    ensures value { result ≡ (if wide then 1 else 0) }
    ensures few { result ≤ 1 }
{
    if wide { 1 } else { 0 }
}
