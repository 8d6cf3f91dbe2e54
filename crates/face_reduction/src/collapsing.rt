//! Collapses by free faces, as steps of a log.
ghost use Rattle.std.specs.Prelude.{◌≡◌, IfOk};
ghost use Rattle.cell_complex.specs.FreePairs.{AreFreeInTurn, HasNoFreePair};
ghost use Rattle.cell_complex.specs.Numbering.{IsComplexOf};
ghost use Rattle.excision.specs.Left.{is_left};
ghost use Rattle.face_reduction.specs.Logs.{IsGrowthThenCollapse, IsCollapse, TakesPairs};

use crate::cofaces::{cofaces_of, wake_all, wake_faces};
use crate::free_pairs::{next_free, take_pair};
use crate::rising::take_rising;
use algebraic_reduction::Log;
use cell_complex::Numbered;
use elem_cubes::Cell;
use field_mod::Field;
use std::alloc::{AllocError, Global};

/// Further steps by free pairs, until no pair of the cells that are left is free. The first steps
/// of the log take exactly the faces of some cubes, and the later ones take free pairs. Of each
/// cell the cofaces that are left are counted and their numbers summed up, so that a free face
/// tells its coface. Where memory is wanting the log is consumed.
///
/// In the plane what comes to be free is taken before the next free face: so borders of holes stay
/// whole, and cycles that go round them are short. In higher dimensions that leaves far more cells:
/// there pairs whose cells have one lower corner are taken first, in the order of corners, and of
/// what is left then what comes to be free waits behind the others.
pub fn collapse<const P: u16>(
    alloc: Global,
    field: Field<P>,
    log: Log<P>,
    cells: &Numbered,
) -> Result<Log<P>, AllocError>
    requires complex { IsComplexOf P cells.now log.complex }
    requires steps { IsGrowthThenCollapse cells.now log.steps }
    ensures complex { IfOk result (λ l. l.complex ≡ log.entry.complex) }
    ensures collapse { IfOk result (λ l. IsCollapse cells.now log.entry.steps l.steps) }
    ensures none_free { IfOk result (λ l. HasNoFreePair (is_left cells.now l.steps)) }
{
    let mut tallies = cofaces_of(alloc, &log)?;
    let mut log = take_rising(alloc, field, log, cells, &mut tallies)?;
    let mut waiting = wake_all(alloc, &tallies, cells.len(), lie_in_plane(cells))?;
    'pairs: while let Some(pair) = next_free(&log, cells, &tallies, &mut waiting) {
        log = take_pair(field, log, cells, &mut tallies, pair)?;
        wake_faces(log.complex().boundary(pair.0), &tallies, &mut waiting)?;
        wake_faces(log.complex().boundary(pair.1), &tallies, &mut waiting)?;
    }
    Ok(log)
}

/// Whether the cells are those of a line or a plane.
pub(crate) fn lie_in_plane(cells: &Numbered) -> bool {
    cells.len() > 0 && cells.cell(0).embedding() <= 2
}

/// One more step for each of these pairs, each of which is free at its turn; found soonest where
/// faces, and cofaces, come in the order of cells. Where memory is wanting the log is consumed.
pub fn take_pairs<const P: u16>(
    log: Log<P>,
    field: Field<P>,
    cells: &Numbered,
    pairs: &[(Cell, Cell)],
) -> Result<Log<P>, AllocError>
    requires complex { IsComplexOf P cells.now log.complex }
    requires steps { IsGrowthThenCollapse cells.now log.steps }
    requires free { AreFreeInTurn (is_left cells.now log.steps) pairs.now }
    ensures complex { IfOk result (λ l. l.complex ≡ log.entry.complex) }
    ensures taken { IfOk result (λ l. TakesPairs cells.now pairs.now log.entry.steps l.steps) }
{
    let _ = cells.len();
    let mut log = log;
    let mut near_face = 0;
    let mut near_coface = 0;
    for pair in pairs {
        let _ = log.step_count();
        let face = cells.number_near(&pair.0, &mut near_face).unwrap();
        let coface = cells.number_near(&pair.1, &mut near_coface).unwrap();
        log = log.reduce_pair(field, face, coface)?;
    }
    Ok(log)
}
