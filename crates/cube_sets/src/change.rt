//! To what an interval of a cell is changed.
ghost use Rattle.std.specs.Prelude.{◌≡◌, ◌<◌, length, true, IsTrue};
ghost use Rattle.std.specs.List.{list_all};
ghost use Rattle.elem_cubes.specs.Cells.{is_wide, is_file_factor};
ghost use Rattle.elem_cubes.specs.Walks.{factor_at};
ghost use Rattle.cube_sets.specs.Changes.{changed_cell};

use elem_cubes::Cell;

/// To what an interval is changed: to one of its ends, or to the next interval down or up.
#[derive(Clone, Copy)]
pub(crate) enum Change {
    LowerEnd,
    UpperEnd,
    Down,
    Up,
}

/// The cell with its interval along an axis changed.
pub(crate) fn changed_cell(cell: &Cell, axis: usize, change: Change) -> Cell
    requires axis { axis < length cell.now }
    requires wide { is_wide (factor_at cell.now axis) ≡ true }
    requires range { IsTrue (list_all is_file_factor cell.now) }
    ensures { result ≡ changed_cell change axis cell.now }
{
    match change {
        Change::LowerEnd => cell.lower_end(axis),
        Change::UpperEnd => cell.upper_end(axis),
        Change::Down => cell.moved_down(axis),
        Change::Up => cell.moved_up(axis),
    }
}
