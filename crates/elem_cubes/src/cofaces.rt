//! The cells that have a cell as a facet, one by one.
ghost use Rattle.std.specs.Prelude.{◌≡◌, IsTrue};
ghost use Rattle.std.specs.List.{list_all};
ghost use Rattle.std.specs.Iterator.{YieldsFirst, item_count};
ghost use Rattle.elem_cubes.specs.Cells.{is_file_factor};
ghost use Rattle.elem_cubes.specs.Faces.{cofaces_of};

use crate::cell::Cell;
use crate::faces::{next_axis, sign_of};
use std::marker::Model;

/// The cells of one dimension more that have a cell as a face and are left to come, with its signs
/// in their boundaries.
#[derive(Drop)]
pub struct Cofaces {
    cell: Cell,
    axis: usize,
    second: bool,
    negative: bool,
}

impl Model for Cofaces {
    ghost use Rattle.std.specs.Prelude.{List, ℤ, false, IsTrue};
    ghost use Rattle.std.specs.List.{list_all};
    ghost use Rattle.elem_cubes.specs.Cells.{Factor, is_file_factor};
    ghost use Rattle.elem_cubes.specs.Faces.{intervals_at};
    ghost use Rattle.elem_cubes.specs.Walks.{left, KeepsWalk};

    ghost Value = { List (List Factor × ℤ) };

    ghost view = { λ s. left intervals_at s.cell s.axis s.second };

    ghost invariant = { λ s. KeepsWalk false s.cell s.axis s.second s.negative
        × IsTrue (list_all is_file_factor s.cell) };
}

impl Cofaces {
    pub(crate) fn of(cell: Cell) -> Cofaces
        requires { IsTrue (list_all is_file_factor cell) }
        ensures { result ≡ cofaces_of cell }
    {
        Cofaces {
            cell,
            axis: 0,
            second: false,
            negative: false,
        }
    }
}

impl Iterator for Cofaces {
    type Item = (Cell, i8);

    ghost next_gives = { YieldsFirst (λ s. s) };

    ghost remaining = { item_count (λ s. s) };

    fn next(&mut self) -> Option<(Cell, i8)> {
        if self.second {
            let coface = self.cell.downward(self.axis);
            self.second = false;
            self.axis += 1;
            return Some((coface, sign_of(self.negative)));
        }
        let (axis, negative) = next_axis(&self.cell, self.axis, self.negative, false);
        self.axis = axis;
        self.negative = negative;
        if axis == self.cell.len() {
            return None;
        }
        self.second = true;
        Some((self.cell.upward(axis), sign_of(!negative)))
    }
}
