//! The full cubes that have a cell as a face, one by one.
ghost use Rattle.std.specs.Prelude.{◌≡◌, ◌<◌, ◌%◌, ◌/◌, length, slice_set, if◌then◌else◌, IsTrue};
ghost use Rattle.std.specs.List.{list_all};
ghost use Rattle.std.specs.Iterator.{YieldsFirst, item_count};
ghost use Rattle.elem_cubes.specs.Cells.{is_file_factor};
ghost use Rattle.elem_cubes.specs.Covers.{covers_of, wholes_of, whole_at, cover_at};
ghost use Rattle.elem_cubes.specs.Walks.{factor_at};

use crate::cell::Cell;
use std::marker::Model;

/// The full cubes round a cell that are left to come.
#[derive(Drop)]
pub struct Covers {
    cell: Cell,
    next: u32,
    count: u32,
}

impl Model for Covers {
    ghost use Rattle.std.specs.Prelude.{List, drop, IsTrue};
    ghost use Rattle.std.specs.List.{list_all};
    ghost use Rattle.elem_cubes.specs.Cells.{Factor, is_file_factor};
    ghost use Rattle.elem_cubes.specs.Covers.{covers_of};
    ghost use Rattle.elem_cubes.specs.Walks.{KeepsCount};

    ghost Value = { List (List Factor) };

    ghost view = { λ s. drop s.next (covers_of s.cell) };

    ghost invariant = { λ s. KeepsCount (covers_of s.cell) s.next s.count
        × IsTrue (list_all is_file_factor s.cell) };
}

impl Covers {
    pub(crate) fn of(cell: Cell) -> Covers
        requires { IsTrue (list_all is_file_factor cell) }
        ensures { result ≡ covers_of cell }
    {
        Covers {
            cell,
            next: 0,
            count: 2u32.pow(cell.embedding() - cell.dim()),
        }
    }
}

impl Iterator for Covers {
    type Item = Cell;

    ghost next_gives = { YieldsFirst (λ s. s) };

    ghost remaining = { item_count (λ s. s) };

    fn next(&mut self) -> Option<Cell> {
        if self.next == self.count {
            return None;
        }
        let cover = cover_at(&self.cell, self.next);
        self.next += 1;
        Some(cover)
    }
}

/// The cube at this place of the list: the remainders of the place choose an interval round each
/// factor.
fn cover_at(cell: &Cell, place: u32) -> Cell
    requires { IsTrue (list_all is_file_factor cell.now) }
    ensures { result ≡ cover_at cell.now place }
{
    let mut cover = *cell;
    let mut rest = place;
    for i in 0..cell.len() {
        let (digit, further) = split(rest, cell.is_wide(i));
        cover = with_whole(&cover, cell, i, digit);
        rest = further;
    }
    cover
}

/// The remainder and the quotient by the number of intervals round a factor.
fn split(rest: u32, wide: bool) -> (u32, u32)
    ensures digit { result.0 ≡ rest % (if wide then 1 else 2) }
    ensures further { result.1 ≡ rest / (if wide then 1 else 2) }
{
    if wide {
        (0, rest)
    } else {
        (rest % 2, rest / 2)
    }
}

/// The cover with an interval round the cell's factor in its place: the one that begins there, or
/// the one that ends there.
fn with_whole(cover: &Cell, cell: &Cell, i: usize, digit: u32) -> Cell
    requires axis { i < length cell.now }
    requires long { length cover.now ≡ length cell.now }
    requires whole { digit < length (wholes_of (factor_at cell.now i)) }
    requires range { IsTrue (list_all is_file_factor cell.now) }
    ensures { result ≡ slice_set cover.now i (whole_at (factor_at cell.now i) digit) }
{
    let end = cell.low(i);
    if digit == 0 {
        cover.with_interval(i, end)
    } else {
        cover.with_interval(i, end - 1)
    }
}
