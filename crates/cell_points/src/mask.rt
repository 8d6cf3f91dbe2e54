//! Masks of the cells at a corner.
ghost use Rattle.std.specs.Prelude.{◌≡◌, ◌<◌, ◌%◌, ◌^◌, true};
ghost use Rattle.std.specs.Int.RustNames.{count_ones};
ghost use Rattle.cell_points.specs.Masks.{turned, has_bit, wide_along, fall_along, narrowed};
ghost use Rattle.cell_points.specs.Places.{rank_of};

use elem_cubes::Cell;

/// The rank of four axes, and the axes of a rank: the four bits in reverse.
pub(crate) fn turned(bits: u8) -> u8
    requires { bits < 16 }
    ensures turned { result ≡ turned bits }
    ensures few { result < 16 }
{
    bits % 2 * 8 + bits / 2 % 2 * 4 + bits / 4 % 2 * 2 + bits / 8
}

/// The rank of a cell at its corner.
pub(crate) fn rank_of(cell: &Cell) -> u8
    ensures rank { result ≡ rank_of cell.now }
    ensures few { result < 16 }
{
    // Read here so that its length is known to be small.
    let _ = cell.embedding();
    turned(cell.axes())
}

/// Whether the rank is in the mask.
pub(crate) fn has_bit(mask: u16, rank: u8) -> bool
    requires { rank < 16 }
    ensures { result ≡ has_bit mask rank }
{
    mask >> rank & 1 == 1
}

/// The mask of all ranks with an interval along an axis.
fn wide_along(axis: usize) -> u16
    ensures { result ≡ wide_along axis }
{
    match axis {
        0 => 65280,
        1 => 61680,
        2 => 52428,
        _ => 43690,
    }
}

fn fall_along(axis: usize) -> u32
    ensures { result ≡ fall_along axis }
{
    match axis {
        0 => 8,
        1 => 4,
        2 => 2,
        _ => 1,
    }
}

/// The cells of the mask with an interval along the axis, with a point in its place.
pub(crate) fn narrowed(axis: usize, mask: u16) -> u16
    ensures { result ≡ narrowed axis mask }
{
    (mask & wide_along(axis)) >> fall_along(axis)
}

/// How many ranks of the mask are below one.
pub(crate) fn ranks_below(mask: u16, rank: u8) -> u32
    requires { rank < 16 }
    ensures { result ≡ count_ones (mask % 2 ^ rank) }
{
    (mask & ((1 << rank) - 1)).count_ones()
}

/// The rank of the mask that has so many of its ranks below it.
pub(crate) fn rank_at(mask: u16, below: u32) -> u8
    requires { below < count_ones mask }
    ensures few { result < 16 }
    ensures bit { has_bit mask result ≡ true }
    ensures place { count_ones (mask % 2 ^ result) ≡ below }
{
    let mut left = below;
    for rank in 0..16 {
        if has_bit(mask, rank) {
            if left == 0 {
                return rank;
            }
            left -= 1;
        }
    }
    0
}
