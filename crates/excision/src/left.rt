//! The cells that a log of numbered cells leaves.
ghost use Rattle.std.specs.Prelude.{◌≡◌, ◌<◌, IfSome, IfNone, length, true, false};
ghost use Rattle.elem_cubes.specs.Laws.{cell_at};
ghost use Rattle.algebraic_reduction.specs.Reduction.{IsUnpaired};
ghost use Rattle.cell_complex.specs.Sorted.{IsSortedCells};
ghost use Rattle.cell_complex.specs.Numbering.{IsComplexOf};
ghost use Rattle.excision.specs.Left.{is_left, is_gone};
ghost use Rattle.excision.specs.Numbers.{is_taken};

use algebraic_reduction::Log;
use cell_complex::Numbered;
use elem_cubes::Cell;

/// The number of a cell that is left.
pub fn left_number<const P: u16>(log: &Log<P>, cells: &Numbered, cell: &Cell) -> Option<u32>
    requires { IsComplexOf P cells.now log.now.complex }
    ensures inside { IfSome result (λ n. n < length cells.now) }
    ensures cell { IfSome result (λ n. cell_at cells.now n ≡ cell.now) }
    ensures alive { IfSome result (IsUnpaired log.now.steps) }
    ensures left { IfSome result (λ n. is_left cells.now log.now.steps cell.now ≡ true) }
    ensures none { IfNone result (is_left cells.now log.now.steps cell.now ≡ false) }
    ensures sorted { IsSortedCells cells.now }
{
    let Some(number) = cells.number(cell) else {
        return None;
    };
    if log.alive(number) {
        Some(number)
    } else {
        None
    }
}

// Whether a cell is not left.
pub(crate) fn is_gone<const P: u16>(log: &Log<P>, cells: &Numbered, cell: &Cell) -> bool
    requires { IsComplexOf P cells.now log.now.complex }
    ensures { result ≡ is_gone cells.now log.now.steps cell.now }
{
    left_number(log, cells, cell).is_none()
}

// Whether a number is not that of a generator that is left.
pub(crate) fn is_taken<const P: u16>(log: &Log<P>, number: u32) -> bool
    ensures { result ≡ is_taken (length log.now.complex.boundaries) log.now.steps number }
{
    if number >= log.complex().len() {
        return true;
    }
    !log.alive(number)
}
