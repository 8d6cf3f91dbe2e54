//! Free pairs whose cells have one lower corner, taken in the order of corners.
ghost use Rattle.std.specs.Prelude.{◌≡◌, IfOk};
ghost use Rattle.cell_complex.specs.Numbering.{IsComplexOf};
ghost use Rattle.face_reduction.specs.Cofaces.{CountCofaces};
ghost use Rattle.face_reduction.specs.Logs.{IsGrowthThenCollapse, IsCollapse};

use crate::cofaces::{Tally, wake_before};
use crate::collapsing::lie_in_plane;
use crate::free_pairs::{next_rising, take_pair};
use crate::front::Front;
use algebraic_reduction::Log;
use cell_complex::Numbered;
use field_mod::Field;
use std::alloc::{AllocError, Global};

/// Outside of the plane, takes free pairs whose coface has the greater number, and so the lower
/// corner of its face: faces have their turn by number, and what comes to be free before the one
/// whose turn it is, is taken at once. In the plane nothing is taken.
pub(crate) fn take_rising<const P: u16>(
    alloc: Global,
    field: Field<P>,
    log: Log<P>,
    cells: &Numbered,
    tallies: &mut [Tally],
) -> Result<Log<P>, AllocError>
    requires complex { IsComplexOf P cells.now log.complex }
    requires steps { IsGrowthThenCollapse cells.now log.steps }
    requires tallies { CountCofaces log.complex log.steps tallies.old }
    ensures complex { IfOk result (λ l. l.complex ≡ log.entry.complex) }
    ensures collapse { IfOk result (λ l. IsCollapse cells.now log.entry.steps l.steps) }
    ensures tallies { IfOk result (λ l. CountCofaces l.complex l.steps tallies.new) }
{
    let _ = cells.len();
    let mut log = log;
    let mut waiting = Front::new(alloc, 0, true)?;
    'faces: for face in 0..turns(cells) {
        waiting.push(face)?;
        log = take_waiting(field, log, cells, tallies, &mut waiting, face)?;
    }
    Ok(log)
}

// How many faces have a turn.
fn turns(cells: &Numbered) -> u32 {
    if lie_in_plane(cells) { 0 } else { cells.len() }
}

// Takes free pairs of waiting faces whose coface has the greater number; then those faces wait,
// too, that come to be free and have a number below this one.
fn take_waiting<const P: u16>(
    field: Field<P>,
    log: Log<P>,
    cells: &Numbered,
    tallies: &mut [Tally],
    waiting: &mut Front,
    below: u32,
) -> Result<Log<P>, AllocError>
    requires complex { IsComplexOf P cells.now log.complex }
    requires steps { IsGrowthThenCollapse cells.now log.steps }
    requires tallies { CountCofaces log.complex log.steps tallies.old }
    ensures complex { IfOk result (λ l. l.complex ≡ log.entry.complex) }
    ensures collapse { IfOk result (λ l. IsCollapse cells.now log.entry.steps l.steps) }
    ensures tallies { IfOk result (λ l. CountCofaces l.complex l.steps tallies.new) }
{
    let _ = cells.len();
    let mut log = log;
    'pairs: while let Some(pair) = next_rising(&log, cells, tallies, waiting) {
        log = take_pair(field, log, cells, tallies, pair)?;
        wake_before(log.complex().boundary(pair.0), tallies, waiting, below)?;
        wake_before(log.complex().boundary(pair.1), tallies, waiting, below)?;
    }
    Ok(log)
}
