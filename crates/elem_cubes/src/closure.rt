//! All faces of a cell, one by one.
ghost use Rattle.std.specs.Prelude.{◌≡◌, ◌<◌, ◌%◌, ◌/◌, length, slice_set, slice_index_or, if◌then◌else◌};
ghost use Rattle.std.specs.Iterator.{YieldsFirst, item_count};
ghost use Rattle.elem_cubes.specs.Faces.{closure_of, parts_of};
ghost use Rattle.elem_cubes.specs.Walks.{factor_at, part_at, face_at};

use crate::cell::Cell;
use std::marker::Model;

/// The faces of a cell that are left to come.
#[derive(Drop)]
pub struct Closure {
    cell: Cell,
    next: u32,
    count: u32,
}

impl Model for Closure {
    ghost use Rattle.std.specs.Prelude.{List, drop};
    ghost use Rattle.elem_cubes.specs.Cells.{Factor};
    ghost use Rattle.elem_cubes.specs.Faces.{closure_of};
    ghost use Rattle.elem_cubes.specs.Walks.{KeepsCount};

    ghost Value = { List (List Factor) };

    ghost view = { λ s. drop s.next (closure_of s.cell) };

    ghost invariant = { λ s. KeepsCount (closure_of s.cell) s.next s.count };
}

impl Closure {
    pub(crate) fn of(cell: Cell) -> Closure
        ensures { result ≡ closure_of cell }
    {
        Closure {
            cell,
            next: 0,
            count: 3u32.pow(cell.dim()),
        }
    }
}

impl Iterator for Closure {
    type Item = Cell;

    ghost next_gives = { YieldsFirst (λ s. s) };

    ghost remaining = { item_count (λ s. s) };

    fn next(&mut self) -> Option<Cell> {
        if self.next == self.count {
            return None;
        }
        let face = face_at(&self.cell, self.next);
        self.next += 1;
        Some(face)
    }
}

/// The face at this place of the closure: the remainders of the place choose a part of each factor.
fn face_at(cell: &Cell, place: u32) -> Cell
    ensures { result ≡ face_at cell.now place }
{
    let mut face = *cell;
    let mut rest = place;
    for i in 0..cell.len() {
        let (digit, further) = split(rest, cell.is_wide(i));
        face = with_part(&face, i, digit);
        rest = further;
    }
    face
}

/// The remainder and the quotient by the number of parts of a factor.
fn split(rest: u32, wide: bool) -> (u32, u32)
    ensures digit { result.0 ≡ rest % (if wide then 3 else 1) }
    ensures further { result.1 ≡ rest / (if wide then 3 else 1) }
{
    if wide {
        (rest % 3, rest / 3)
    } else {
        (0, rest)
    }
}

/// The cell with a part of a factor in its place: the lower end, the interval or the upper end.
fn with_part(cell: &Cell, i: usize, digit: u32) -> Cell
    requires axis { i < length cell.now }
    requires part { digit < length (parts_of (factor_at cell.now i)) }
    ensures { result ≡ slice_set cell.now i (part_at (factor_at cell.now i) digit) }
{
    match digit {
        0 => cell.lower_end(i),
        1 => *cell,
        _ => cell.upper_end(i),
    }
}
