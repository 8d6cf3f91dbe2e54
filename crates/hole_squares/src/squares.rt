//! The squares of the plane with n by n holes.
ghost use Rattle.std.specs.Prelude.{◌≡◌, ◌≤◌, ◌+◌, ◌*◌, ◌++◌, IfOk, OnOk};
ghost use Rattle.hole_squares.specs.Holes.{square, IsHoleSet};
ghost use Rattle.hole_squares.specs.Columns.{column};

use cube_sets::CubeSet;
use elem_cubes::{Cell, Corner};
use std::alloc::{AllocError, Global};

/// The greatest n for which the squares with n by n holes have no more cells than a set may have.
pub const MOST_HOLES: u16 = 527;

/// The squares with lower corners from (0, 0) to (2n, 2n) that have not both coordinates odd.
pub fn hole_squares(alloc: Global, n: u16) -> Result<CubeSet, AllocError>
    requires { n ≤ MOST_HOLES }
    ensures { IfOk result (IsHoleSet n) }
{
    let mut squares = Vec::new(alloc);
    for x in 0..2 * n + 1 {
        put_column(&mut squares, x, 2 * n + 1)?;
    }
    let set = CubeSet::of_cells(2, squares)?;
    // Its clauses say that the members are in order.
    let _count = set.len();
    Ok(set)
}

// Adds the squares of a column whose second coordinate is below `rows`.
fn put_column(to: &mut Vec<Cell>, x: u16, rows: u16) -> Result<(), AllocError>
    ensures { OnOk result (to.new.items ≡ to.old.items ++ column x rows) }
{
    for y in 0..rows {
        if x % 2 == 1 && y % 2 == 1 {
            continue;
        }
        to.push(square(x, y))?;
    }
    Ok(())
}

// The square with this lower corner.
fn square(x: u16, y: u16) -> Cell
    ensures { result ≡ square x y }
{
    let corner = Corner::of(&[i32::from(x), i32::from(y)]).unwrap();
    Cell::full(&corner).unwrap()
}
