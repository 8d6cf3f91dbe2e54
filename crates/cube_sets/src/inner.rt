//! Full cubes that can be moved either way along each axis within the range of the files.
ghost use Rattle.std.specs.Prelude.{◌≡◌};
ghost use Rattle.std.specs.List.{list_all};
ghost use Rattle.cube_sets.specs.Neighbours.{is_inner_end, is_inner};

use elem_cubes::{Cell, HIGH, LOW};

fn is_inner_end(x: i32) -> bool
    ensures { result ≡ is_inner_end x }
{
    LOW < x && x < HIGH - 1
}

fn are_inner_ends(xs: &[i32]) -> bool
    ensures { result ≡ list_all is_inner_end xs.now }
{
    xs.iter().all(|x| is_inner_end(*x))
}

fn is_inner(cell: &Cell) -> bool
    ensures { result ≡ is_inner cell.now }
{
    are_inner_ends(cell.lower().coordinates())
}

/// Whether each of these cubes can be moved so.
pub(crate) fn are_inner(cells: &[Cell]) -> bool
    ensures { result ≡ list_all is_inner cells.now }
{
    cells.iter().all(|cell| is_inner(cell))
}
