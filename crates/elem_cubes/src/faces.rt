//! The faces of one dimension less, one by one.
ghost use Rattle.std.specs.Prelude.{◌≡◌, ◌+◌, ◌≤◌, length, take, drop, not};
ghost use Rattle.std.specs.List.{prefix_len};
ghost use Rattle.std.specs.Iterator.{YieldsFirst, item_count};
ghost use Rattle.elem_cubes.specs.Faces.{faces_of};
ghost use Rattle.elem_cubes.specs.Walks.{is_wide_as, is_turned, sign_of};

use crate::cell::Cell;
use std::marker::Model;

/// The facets of a cell that are left to come, with their signs in its boundary.
#[derive(Drop)]
pub struct Faces {
    cell: Cell,
    axis: usize,
    second: bool,
    negative: bool,
}

impl Model for Faces {
    ghost use Rattle.std.specs.Prelude.{List, ℤ, true};
    ghost use Rattle.elem_cubes.specs.Cells.{Factor};
    ghost use Rattle.elem_cubes.specs.Faces.{ends_of};
    ghost use Rattle.elem_cubes.specs.Walks.{left, KeepsWalk};

    ghost Value = { List (List Factor × ℤ) };

    ghost view = { λ s. left ends_of s.cell s.axis s.second };

    ghost invariant = { λ s. KeepsWalk true s.cell s.axis s.second s.negative };
}

impl Faces {
    pub(crate) fn of(cell: Cell) -> Faces
        ensures { result ≡ faces_of cell }
    {
        Faces {
            cell,
            axis: 0,
            second: false,
            negative: false,
        }
    }
}

impl Iterator for Faces {
    type Item = (Cell, i8);

    ghost next_gives = { YieldsFirst (λ s. s) };

    ghost remaining = { item_count (λ s. s) };

    fn next(&mut self) -> Option<(Cell, i8)> {
        if self.second {
            let face = self.cell.lower_end(self.axis);
            self.second = false;
            self.axis += 1;
            self.negative = !self.negative;
            return Some((face, sign_of(self.negative)));
        }
        let (axis, negative) = next_axis(&self.cell, self.axis, self.negative, true);
        self.axis = axis;
        self.negative = negative;
        if axis == self.cell.len() {
            return None;
        }
        self.second = true;
        Some((self.cell.upper_end(axis), sign_of(negative)))
    }
}

/// The sign of a cell behind an odd number of intervals, or an even number.
pub(crate) fn sign_of(negative: bool) -> i8
    ensures { result ≡ sign_of negative }
{
    if negative { -1 } else { 1 }
}

/// The first axis from here on along which the cell is an interval, or a point, or else the number
/// of axes; and whether the signs behind the factors before it are turned.
pub(crate) fn next_axis(cell: &Cell, from: usize, negative: bool, wide: bool) -> (usize, bool)
    requires place { from ≤ length cell.now }
    requires signed { negative ≡ is_turned (take from cell.now) }
    ensures place { result.0 ≡ from + prefix_len (is_wide_as (not wide)) (drop from cell.now) }
    ensures signed { result.1 ≡ is_turned (take result.0 cell.now) }
    ensures within { result.0 ≤ length cell.now }
{
    let mut axis = from;
    let mut turned = negative;
    while axis < cell.len() && cell.is_wide(axis) != wide {
        turned = turned != cell.is_wide(axis);
        axis += 1;
    }
    (axis, turned)
}
