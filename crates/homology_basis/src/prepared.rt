//! The relative complex of a pair: excised, grown, collapsed and reduced.
ghost use Rattle.std.specs.Prelude.{◌≡◌, ◌<◌, ◌≤◌, ◌++◌, List, length, IfOk, OnOk, Err};
ghost use Rattle.std.specs.List.Sorted.{IsStrictlySortedBy};
ghost use Rattle.elem_cubes.specs.Cells.{Factor};
ghost use Rattle.elem_cubes.specs.Order.{cell_cmp};
ghost use Rattle.cube_sets.specs.Sorted.{has};
ghost use Rattle.algebraic_reduction.specs.Reduction.{Step};
ghost use Rattle.algebraic_reduction.specs.Laws.{NothingLeft};
ghost use Rattle.cell_complex.specs.RelativeComplex.{is_relative};
ghost use Rattle.cell_complex.specs.CellCount.{cell_count};
ghost use Rattle.cell_complex.specs.Numbering.{IsComplexOf, IsRelativeComplex};
ghost use Rattle.cell_complex.specs.Growth.{IsFinishedGrowth};
ghost use Rattle.cell_complex.specs.FreePairs.{CollapsesTo, HasNoFreePair};
ghost use Rattle.excision.specs.Excision.{excised};
ghost use Rattle.excision.specs.Left.{is_left};
ghost use Rattle.homology_basis.specs.Marks.{TellLeft};

use algebraic_reduction::Log;
use cell_complex::{CELLS, CellList, CellsFault, Numbered, complex_of, relative};
use cube_sets::CubeSet;
use excision::{Grown, excise, grow};
use face_reduction::collapse;
use field_mod::Field;
use std::alloc::{AllocError, Global};

/// The relative cells of a pair, the cubes of a growth, the cells that a collapse leaves, and a log
/// of the complex of the cells in which no boundary is left.
#[derive(Drop)]
pub struct Prepared<const P: u16> {
    /// The relative cells, whose numbers are the generators of the complex.
    pub cells: Numbered,
    /// The members of x that were moved into the subset, in that order.
    pub grown: CellList,
    /// The cells that are left after the collapse, in order.
    pub left: CellList,
    /// The log of their complex.
    pub log: Log<P>,
}

/// Excises, numbers the relative cells, grows the subset, collapses, and reduces until no boundary
/// is left. `TooManyCells` comes exactly where `x` and those members of `a` that touch it have more
/// than `CELLS` cells.
pub fn prepare<const P: u16>(
    alloc: Global,
    field: Field<P>,
    x: &CubeSet,
    a: &CubeSet,
) -> Result<Prepared<P>, CellsFault>
    ensures complex { IfOk result (λ r. IsRelativeComplex P x.now.cells a.now.cells r.cells
        r.log.complex) }
    ensures grown { IfOk result (λ r. IsFinishedGrowth P x.now.cells a.now.cells r.grown) }
    ensures left { IfOk result (λ r. CollapsesTo (is_relative x.now.cells (a.now.cells ++ r.grown))
        (has cell_cmp r.left)) }
    ensures none_free { IfOk result (λ r. HasNoFreePair (has cell_cmp r.left)) }
    ensures sorted { IfOk result (λ r. IsStrictlySortedBy cell_cmp r.left) }
    ensures nothing_left { IfOk result (λ r. NothingLeft P r.log.complex r.log.steps) }
    ensures few { OnOk result (cell_count (x.now.cells ++ (excised x.now a.now).cells) ≤ CELLS) }
    ensures many { result ≡ Err CellsFault.TooManyCells
        → CELLS < cell_count (x.now.cells ++ (excised x.now a.now).cells) }
{
    let near = excise(alloc, x, a)?;
    let cells = relative(alloc, x, &near)?;
    let _ = cells.len();
    let complex = complex_of(alloc, field, &cells)?;
    let log = Log::start(alloc, complex)?;
    let Grown { log, cubes } = grow(alloc, field, log, &cells, x, &near)?;
    let log = collapse(alloc, field, log, &cells)?;
    let marks = left_marks(alloc, &log, &cells)?;
    let log = log.reduce_all(field)?;
    let left = left_cells(alloc, &marks, &cells)?;
    Ok(Prepared {
        cells,
        grown: cubes,
        left,
        log,
    })
}

// Which of the cells a log leaves, by their numbers. While more is reduced that takes less memory
// than the cells.
fn left_marks<const P: u16>(
    alloc: Global,
    log: &Log<P>,
    cells: &Numbered,
) -> Result<Vec<bool>, AllocError>
    requires { IsComplexOf P cells.now log.now.complex }
    ensures count { IfOk result (λ m. length m.items ≡ length cells.now) }
    ensures marks { IfOk result (λ m. TellLeft (length cells.now) log.now.steps m.items) }
{
    let mut marks = Vec::with_capacity(alloc, cells.len() as usize)?;
    for number in 0..cells.len() {
        marks.push(log.alive(number))?;
    }
    Ok(marks)
}

// The cells that are marked as left, in order.
fn left_cells(alloc: Global, marks: &[bool], cells: &Numbered) -> Result<CellList, AllocError>
    requires { length marks.now ≡ length cells.now }
    ensures left { IfOk result (λ l. (ss : List Step) → TellLeft (length cells.now) ss marks.now
        → (c : List Factor) → has cell_cmp l c ≡ is_left cells.now ss c) }
    ensures sorted { IfOk result (λ l. (ss : List Step) → TellLeft (length cells.now) ss marks.now
        → IsStrictlySortedBy cell_cmp l) }
{
    let mut left = CellList::new(alloc);
    let mut near = 0;
    for number in 0..cells.len() {
        if !marks[number as usize] {
            continue;
        }
        left.push(cells.cell_near(number, &mut near))?;
    }
    Ok(left)
}
