//! Vertices of values, and chains on values that fill cycles.
ghost use Rattle.std.specs.Prelude.{◌≡◌, ◌<◌, length, IfOk};
ghost use Rattle.elem_cubes.specs.Cells.{dimension_of};
ghost use Rattle.elem_cubes.specs.Laws.{cell_at};
ghost use Rattle.cell_complex.specs.RelativeComplex.{IsClosedList};
ghost use Rattle.chain_selector.specs.Multiples.{NamesBelow};
ghost use Rattle.chain_selector.specs.Fillings.{FillsIfNull};

use algebraic_reduction::Log;
use cell_complex::{Numbered, complex_of};
use chains::Chain;
use field_mod::Field;
use std::alloc::{AllocError as NoMemory, Global};

/// The number of the first vertex of a list of cells that is closed under faces and not empty.
pub(crate) fn first_vertex(value: &Numbered) -> u32
    requires some { 0 < length value.now }
    requires closed { IsClosedList value.now }
    ensures inside { result < length value.now }
    ensures vertex { dimension_of (cell_at value.now result) ≡ 0 }
{
    for number in 0..value.len() {
        if value.cell(number).dim() == 0 {
            return number;
        }
    }
    unreachable!()
}

/// A chain on a list of cells that is closed under faces, which fills a chain on it where that is a
/// null cycle: what the homotopy of steps that leave no boundary gives there.
pub(crate) fn filling_of<const P: u16>(
    alloc: Global,
    field: Field<P>,
    value: &Numbered,
    cycle: &Chain<P>,
) -> Result<Chain<P>, NoMemory>
    requires closed { IsClosedList value.now }
    requires within { NamesBelow (length value.now) cycle.now }
    ensures { IfOk result (FillsIfNull P value.now cycle.now) }
{
    // Its clauses say that the cells stand in order.
    let _count = value.len();
    let complex = complex_of(alloc, field, value)?;
    let log = Log::start(alloc, complex)?.reduce_all(field)?;
    let filling = log.homotopy(alloc, field, cycle)?;
    // Their clauses say what a log and a chain are.
    let _steps = log.step_count();
    let _terms = filling.len();
    Ok(filling)
}
