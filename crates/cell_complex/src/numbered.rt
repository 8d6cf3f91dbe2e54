//! Numbered cells.
ghost use Rattle.std.specs.Prelude.{◌≡◌, ◌<◌, ◌↔◌, [], length, IsTrue, slice_get, IsSome, IfSome, IfOk, Some};
ghost use Rattle.std.specs.List.{Contains};
ghost use Rattle.elem_cubes.specs.Laws.{cell_at};
ghost use Rattle.cell_complex.specs.Sorted.{IsSortedCells};
ghost use Rattle.cell_complex.specs.Numbering.{number_of};

use cell_points::Points;
use elem_cubes::Cell;
use std::alloc::{AllocError, Global};
use std::marker::Model;

/// Distinct cells in the order of cells, seen as their list: fewer than 2^32, with as many factors
/// as each other and within the range of the files. The number of a cell is its place, counted from
/// 0.
#[derive(Drop)]
pub struct Numbered {
    points: Points,
}

impl Model for Numbered {
    ghost use Rattle.std.specs.Prelude.{List};
    ghost use Rattle.elem_cubes.specs.Cells.{Factor};
    ghost use Rattle.cell_complex.specs.Sorted.{IsSortedCells};

    ghost Value = { List (List Factor) };

    ghost view = { λ s. s.points };

    ghost invariant = { λ s. IsSortedCells s.points };
}

impl Numbered {
    /// Numbers cells that are sorted already.
    pub fn of_sorted(alloc: Global, cells: &[Cell]) -> Result<Numbered, AllocError>
        requires { IsSortedCells cells.now }
        ensures { IfOk result (λ numbered. numbered ≡ cells.now) }
    {
        let points = Points::of_sorted(alloc, cells)?;
        Ok(Numbered::of_points(points))
    }

    // Numbers cells that are kept by points already.
    pub(crate) fn of_points(points: Points) -> Numbered
        ensures { result ≡ points }
    {
        // Its clauses say that the cells are sorted.
        let _count = points.len();
        Numbered { points }
    }

    /// How many cells there are.
    pub fn len(&self) -> u32
        ensures count { result ≡ length self.now }
        ensures sorted { IsSortedCells self.now }
    {
        self.points.len()
    }

    /// Whether there are none.
    pub fn is_empty(&self) -> bool
        ensures empty { IsTrue result ↔ (self.now ≡ []) }
    {
        self.points.is_empty()
    }

    /// The cell of a number below `len`.
    pub fn cell(&self, number: u32) -> Cell
        requires { number < length self.now }
        ensures { result ≡ cell_at self.now number }
    {
        self.points.cell(number)
    }

    /// The same, found sooner where the cell that was told with this `near` before is the one of
    /// this number or of the number before it; at first `near` is 0.
    pub fn cell_near(&self, number: u32, near: &mut u32) -> Cell
        requires { number < length self.now }
        ensures { result ≡ cell_at self.now number }
    {
        self.points.cell_near(number, near)
    }

    /// The number of a cell, or `None` where it is not there.
    pub fn number(&self, cell: &Cell) -> Option<u32>
        ensures found { IsSome result ↔ Contains self.now cell.now }
        ensures place { IfSome result (λ number. slice_get self.now number ≡ Some cell.now) }
        ensures number { IfSome result (λ number. number ≡ number_of self.now cell.now) }
        ensures sorted { IsSortedCells self.now }
    {
        self.points.number(cell)
    }

    /// The same, found sooner where the cell stands at or soon behind the lower corner of the one
    /// that was found with this `near` before; at first `near` is 0.
    pub fn number_near(&self, cell: &Cell, near: &mut u32) -> Option<u32>
        ensures found { IsSome result ↔ Contains self.now cell.now }
        ensures place { IfSome result (λ number. slice_get self.now number ≡ Some cell.now) }
        ensures number { IfSome result (λ number. number ≡ number_of self.now cell.now) }
        ensures sorted { IsSortedCells self.now }
    {
        self.points.number_near(cell, near)
    }
}
