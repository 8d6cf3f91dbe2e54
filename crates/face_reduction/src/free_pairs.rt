//! Free pairs among the cells that a log leaves: found, and taken.
ghost use Rattle.std.specs.Prelude.{◌≡◌, ◌≢◌, ℕ, ◌<◌, ◌≤◌, List, IfSome, IfNone, IfOk, length, true, false};
ghost use Rattle.elem_cubes.specs.Cells.{Factor};
ghost use Rattle.elem_cubes.specs.Laws.{cell_at};
ghost use Rattle.cell_complex.specs.FreePairs.{IsFreePair};
ghost use Rattle.cell_complex.specs.Sorted.{IsSortedCells};
ghost use Rattle.cell_complex.specs.Numbering.{IsComplexOf};
ghost use Rattle.excision.specs.Left.{is_left, is_one_of};
ghost use Rattle.face_reduction.specs.Cofaces.{CountCofaces};
ghost use Rattle.algebraic_reduction.specs.LogWords.{IsOneMore};
ghost use Rattle.face_reduction.specs.Logs.{IsFreeNumber, IsFreeFace, IsGrowthThenCollapse};

use crate::cofaces::{Tally, only_coface, take_coface};
use crate::front::Front;
use algebraic_reduction::Log;
use cell_complex::Numbered;
use field_mod::Field;
use std::alloc::AllocError;

// The number of the one cell that is left and has the cell of this number as a facet, where that is
// left.
fn free_coface<const P: u16>(
    log: &Log<P>,
    cells: &Numbered,
    tallies: &[Tally],
    face: u32,
) -> Option<u32>
    requires prime { 2 ≤ P }
    requires complex { IsComplexOf P cells.now log.now.complex }
    requires tallies { CountCofaces log.now.complex log.now.steps tallies.now }
    requires face { face < length cells.now }
    ensures some { IfSome result (IsFreeNumber cells.now log.now.steps face) }
    ensures none { IfNone result ((b : List Factor) → ¬ IsFreePair (is_left cells.now log.now.steps)
        (cell_at cells.now face) b) }
{
    // Its clauses say that the cells are in order.
    let _ = cells.len();
    if !log.alive(face) {
        return None;
    }
    only_coface(tallies, face)
}

/// The first waiting face of a free pair, with its coface. Those before it wait no more; none of
/// the others that do not wait is the face of a free pair.
pub(crate) fn next_free<const P: u16>(
    log: &Log<P>,
    cells: &Numbered,
    tallies: &[Tally],
    waiting: &mut Front,
) -> Option<(u32, u32)>
    requires complex { IsComplexOf P cells.now log.now.complex }
    requires prime { 2 ≤ P }
    requires tallies { CountCofaces log.now.complex log.now.steps tallies.now }
    requires idle { (k : ℕ) → k < length cells.now → is_one_of waiting.old k ≡ false
        → ¬ IsFreeFace (is_left cells.now log.now.steps) (cell_at cells.now k) }
    ensures inside { IfSome result (λ t. t.0 < length cells.now) }
    ensures some { IfSome result (λ t. IsFreeNumber cells.now log.now.steps t.0 t.1) }
    ensures rest { IfSome result (λ t. (k : ℕ) → k < length cells.now
        → is_one_of waiting.new k ≡ false → k ≢ t.0 → ¬ IsFreeFace (is_left cells.now log.now.steps)
        (cell_at cells.now k)) }
    ensures none { IfNone result ((k : ℕ) → k < length cells.now
        → ¬ IsFreeFace (is_left cells.now log.now.steps) (cell_at cells.now k)) }
    ensures sorted { IsSortedCells cells.now }
{
    let _ = cells.len();
    'looking: while let Some(face) = waiting.pop() {
        if face >= cells.len() {
            continue;
        }
        if let Some(coface) = free_coface(log, cells, tallies, face) {
            return Some((face, coface));
        }
    }
    None
}

/// The first waiting face of a free pair whose coface has the greater number, with that coface.
/// Those before it wait no more.
pub(crate) fn next_rising<const P: u16>(
    log: &Log<P>,
    cells: &Numbered,
    tallies: &[Tally],
    waiting: &mut Front,
) -> Option<(u32, u32)>
    requires complex { IsComplexOf P cells.now log.now.complex }
    requires prime { 2 ≤ P }
    requires tallies { CountCofaces log.now.complex log.now.steps tallies.now }
    ensures inside { IfSome result (λ t. t.0 < length cells.now) }
    ensures some { IfSome result (λ t. IsFreeNumber cells.now log.now.steps t.0 t.1) }
    ensures sorted { IsSortedCells cells.now }
{
    let _ = cells.len();
    'looking: while let Some(face) = waiting.pop() {
        if cells.len() <= face {
            continue;
        }
        let Some(coface) = free_coface(log, cells, tallies, face) else {
            continue;
        };
        if face < coface {
            return Some((face, coface));
        }
    }
    None
}

/// Takes a free pair: there is one step more, and a coface less at all faces of its two cells.
pub(crate) fn take_pair<const P: u16>(
    field: Field<P>,
    log: Log<P>,
    cells: &Numbered,
    tallies: &mut [Tally],
    pair: (u32, u32),
) -> Result<Log<P>, AllocError>
    requires complex { IsComplexOf P cells.now log.complex }
    requires steps { IsGrowthThenCollapse cells.now log.steps }
    requires tallies { CountCofaces log.complex log.steps tallies.old }
    requires inside { pair.0 < length cells.now }
    requires free { IsFreeNumber cells.now log.steps pair.0 pair.1 }
    ensures complex { IfOk result (λ l. l.complex ≡ log.entry.complex) }
    ensures taken { IfOk result (λ l. IsOneMore log.entry.steps l.steps pair.0 pair.1) }
    ensures tallies { IfOk result (λ l. CountCofaces l.complex l.steps tallies.new) }
{
    let _ = cells.len();
    let _ = log.step_count();
    let log = log.reduce_pair(field, pair.0, pair.1)?;
    take_coface(tallies, log.complex().boundary(pair.0), pair.0);
    take_coface(tallies, log.complex().boundary(pair.1), pair.1);
    Ok(log)
}
