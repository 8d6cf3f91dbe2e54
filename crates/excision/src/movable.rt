//! Which cells may be moved into the cells that a log has taken.
ghost use Rattle.std.specs.Prelude.{◌≡◌, ◌↔◌, ◌<◌, List, length, filter, not, true, IsTrue, IfOk, OnOk, IfSome};
ghost use Rattle.std.specs.List.{list_all};
ghost use Rattle.elem_cubes.specs.Cells.{Factor, is_file_factor};
ghost use Rattle.elem_cubes.specs.Order.{cell_cmp};
ghost use Rattle.cube_sets.specs.Sorted.{has};
ghost use Rattle.cell_complex.specs.Acyclic.{IsAcyclic};
ghost use Rattle.cell_complex.specs.Growth.{cells_in};
ghost use Rattle.cell_complex.specs.Numbering.{IsComplexOf};
ghost use Rattle.excision.specs.Known.{AreKnown, mask_from};
ghost use Rattle.excision.specs.Left.{is_gone, IsMovableInto, IsClosedIn};
ghost use Rattle.excision.specs.Numbers.{face_numbers, is_taken};

use crate::deciding::is_acyclic;
use crate::left::{is_gone, is_taken};
use algebraic_reduction::Log;
use cell_complex::Numbered;
use cube_sets::CubeSet;
use elem_cubes::Cell;
use field_mod::Field;
use std::alloc::{AllocError, Global};
use std::collections::BTreeMap;

// Whether a cell with faces of these numbers may be moved into the cells that are not left. What
// full cubes were asked for is remembered by the mask of their faces that are not left.
pub(crate) fn is_movable<const P: u16>(
    alloc: Global,
    field: Field<P>,
    log: &Log<P>,
    cells: &Numbered,
    cell: &Cell,
    faces: &[u32],
    known: &mut BTreeMap<u64, bool>,
) -> Result<bool, AllocError>
    requires range { list_all is_file_factor cell.now ≡ true }
    requires complex { IsComplexOf P cells.now log.now.complex }
    requires closed { IsClosedIn cell.now (is_gone cells.now log.now.steps) }
    requires faces { faces.now ≡ face_numbers cells.now cell.now }
    requires known { AreKnown P (length cell.now) known.old }
    ensures movable { IfOk result (λ b. IsTrue b
        ↔ IsMovableInto P (is_gone cells.now log.now.steps) cell.now) }
    ensures known { OnOk result (AreKnown P (length cell.now) known.new) }
{
    // Its clause says that the cells are in order.
    let _ = cells.len();
    if !cell.is_full() {
        return is_movable_now(alloc, field, log, cells, cell);
    }
    let Some(mask) = mask_of(log, faces) else {
        return is_movable_now(alloc, field, log, cells, cell);
    };
    if let Some(answer) = known.get(&mask).copied() {
        return Ok(answer);
    }
    let answer = is_movable_now(alloc, field, log, cells, cell)?;
    let _ = known.insert(mask, answer)?;
    Ok(answer)
}

// A bit for each of these numbers, the first one highest: 1 where it is not that of a cell that is
// left. There is no mask where the bits are too many.
fn mask_of<const P: u16>(log: &Log<P>, faces: &[u32]) -> Option<u64>
    ensures { IfSome result (λ mask. mask_from 0
        (is_taken (length log.now.complex.boundaries) log.now.steps) faces.now ≡ mask) }
{
    let mut mask = 0u64;
    for face in faces {
        let Some(double) = mask.checked_mul(2) else {
            return None;
        };
        mask = if is_taken(log, *face) {
            double + 1
        } else {
            double
        };
    }
    Some(mask)
}

// Whether a cell may be moved into the cells that are not left, by a reduction of these.
fn is_movable_now<const P: u16>(
    alloc: Global,
    field: Field<P>,
    log: &Log<P>,
    cells: &Numbered,
    cell: &Cell,
) -> Result<bool, AllocError>
    requires range { list_all is_file_factor cell.now ≡ true }
    requires complex { IsComplexOf P cells.now log.now.complex }
    requires closed { IsClosedIn cell.now (is_gone cells.now log.now.steps) }
    ensures { IfOk result (λ b. IsTrue b
        ↔ IsMovableInto P (is_gone cells.now log.now.steps) cell.now) }
{
    if is_gone(log, cells, cell) {
        return Ok(false);
    }
    are_acyclic(alloc, field, log, cells, cell)
}

// Whether the faces of a cell that are not left are acyclic.
fn are_acyclic<const P: u16>(
    alloc: Global,
    field: Field<P>,
    log: &Log<P>,
    cells: &Numbered,
    cell: &Cell,
) -> Result<bool, AllocError>
    requires range { list_all is_file_factor cell.now ≡ true }
    requires complex { IsComplexOf P cells.now log.now.complex }
    requires closed { IsClosedIn cell.now (is_gone cells.now log.now.steps) }
    ensures { IfOk result (λ b. IsTrue b
        ↔ IsAcyclic P (cells_in (is_gone cells.now log.now.steps) cell.now)) }
{
    let gone = gone_faces(alloc, log, cells, cell)?;
    let _ = gone.len();
    is_acyclic(alloc, field, &gone)
}

// The faces of a cell that are not left.
fn gone_faces<const P: u16>(
    alloc: Global,
    log: &Log<P>,
    cells: &Numbered,
    cell: &Cell,
) -> Result<Numbered, AllocError>
    requires range { list_all is_file_factor cell.now ≡ true }
    requires complex { IsComplexOf P cells.now log.now.complex }
    ensures { IfOk result (λ n. (c : List Factor)
        → has cell_cmp n c ≡ has cell_cmp (cells_in (is_gone cells.now log.now.steps) cell.now) c) }
{
    let dimension = cell.embedding() as u8;
    let mut gone = Vec::new(alloc);
    for face in cell.closure() {
        if !is_gone(log, cells, &face) {
            continue;
        }
        gone.push(face)?;
    }
    let set = CubeSet::of_cells(dimension, gone)?;
    Numbered::of_sorted(alloc, set.cells())
}

// Those of these numbers that are of cells that are left.
pub(crate) fn left_numbers<const P: u16>(
    alloc: Global,
    log: &Log<P>,
    faces: &[u32],
) -> Result<Vec<u32>, AllocError>
    ensures { IfOk result (λ v. v.items ≡ filter
        (λ n. not (is_taken (length log.now.complex.boundaries) log.now.steps n)) faces.now) }
{
    let mut numbers = Vec::with_capacity(alloc, faces.len())?;
    for face in faces {
        if is_taken(log, *face) {
            continue;
        }
        numbers.push(*face)?;
    }
    Ok(numbers)
}
