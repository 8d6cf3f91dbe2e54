//! Growth of the subset of a pair.
ghost use Rattle.std.specs.Prelude.{◌≡◌, ◌≢◌, ℕ, ◌<◌, List, [], length, map, true, false, IfOk, OnOk, IfSome, IfNone};
ghost use Rattle.std.specs.List.{Contains};
ghost use Rattle.elem_cubes.specs.Cells.{Factor};
ghost use Rattle.elem_cubes.specs.Laws.{cell_at};
ghost use Rattle.cell_complex.specs.Numbering.{IsComplexOf, IsRelativeComplex};
ghost use Rattle.cell_complex.specs.Growth.{IsFinishedGrowth};
ghost use Rattle.excision.specs.Known.{AreKnown};
ghost use Rattle.excision.specs.Left.{is_gone, is_one_of, IsMovableInto, IsClosedIn};
ghost use Rattle.excision.specs.Numbers.{face_numbers};
ghost use Rattle.excision.specs.Owners.{Names};
ghost use Rattle.excision.specs.Taking.{TakeFaces};

use crate::face_numbers::FaceNumbers;
use crate::movable::{is_movable, left_numbers};
use crate::owners::Owners;
use crate::part::reduce_part;
use crate::waiting::Waiting;
use algebraic_reduction::Log;
use cell_complex::{CellList, Numbered};
use cube_sets::CubeSet;
use field_mod::Field;
use std::alloc::{AllocError, Global};
use std::collections::BTreeMap;

/// A log whose steps take the faces of some cubes, and these cubes in the order in which they were
/// moved.
#[derive(Drop)]
pub struct Grown<const P: u16> {
    pub log: Log<P>,
    pub cubes: CellList,
}

/// Moves members of `x` into the subset, each when its cells that are in it are acyclic, until
/// there is none such, and reduces the cells of each among themselves. The log has no steps, and is
/// of the complex of these cells, which are those of the pair. A member is looked at at first, and
/// again after a member was moved that has a cell of it.
pub fn grow<const P: u16>(
    alloc: Global,
    field: Field<P>,
    log: Log<P>,
    cells: &Numbered,
    x: &CubeSet,
    a: &CubeSet,
) -> Result<Grown<P>, AllocError>
    requires start { log.steps ≡ [] }
    requires complex { IsRelativeComplex P x.now.cells a.now.cells cells.now log.complex }
    ensures complex { IfOk result (λ g. g.log.complex ≡ log.entry.complex) }
    ensures growth { IfOk result (λ g. IsFinishedGrowth P x.now.cells a.now.cells g.cubes) }
    ensures taken { IfOk result (λ g. TakeFaces cells.now g.cubes g.log.steps) }
{
    // The clauses of these two say that cells are in order and members in range.
    let _ = (cells.len(), a.len());
    let mut log = log;
    let mut cubes = CellList::new(alloc);
    if a.is_empty() {
        return Ok(Grown { log, cubes });
    }
    let faces = FaceNumbers::of(alloc, cells, x)?;
    let owners = Owners::of(alloc, cells, x, &faces)?;
    let mut waiting = Waiting::below(alloc, x.len())?;
    let mut known = BTreeMap::new(alloc);
    'moves: while let Some(member) = next_movable(
        alloc,
        field,
        &log,
        cells,
        x,
        &faces,
        &mut waiting,
        &mut known,
    )? {
        let numbers = left_numbers(alloc, &log, faces.of_member(member))?;
        wake(&owners, &numbers, &mut waiting)?;
        let _ = log.step_count();
        log = reduce_part(alloc, field, log, &numbers)?;
        let _ = log.step_count();
        cubes.push(x.cell(member))?;
    }
    Ok(Grown { log, cubes })
}

// The first waiting member that may be moved into the cells that are not left, by its place. Those
// before it wait no more; none of the others that do not wait may be moved.
fn next_movable<const P: u16>(
    alloc: Global,
    field: Field<P>,
    log: &Log<P>,
    cells: &Numbered,
    x: &CubeSet,
    faces: &FaceNumbers,
    waiting: &mut Waiting,
    known: &mut BTreeMap<u64, bool>,
) -> Result<Option<u32>, AllocError>
    requires complex { IsComplexOf P cells.now log.now.complex }
    requires closed { (q : List Factor) → Contains x.now.cells q
        → IsClosedIn q (is_gone cells.now log.now.steps) }
    requires faces { faces.now ≡ map (face_numbers cells.now) x.now.cells }
    requires known { AreKnown P x.now.dimension known.old }
    requires idle { (j : ℕ) → j < length x.now.cells → is_one_of waiting.old j ≡ false
        → ¬ IsMovableInto P (is_gone cells.now log.now.steps) (cell_at x.now.cells j) }
    ensures known { OnOk result (AreKnown P x.now.dimension known.new) }
    ensures some { IfOk result (λ o. IfSome o
        (λ m. IsMovableInto P (is_gone cells.now log.now.steps) (cell_at x.now.cells m))) }
    ensures member { IfOk result (λ o. IfSome o (λ m. m < length x.now.cells)) }
    ensures rest { IfOk result (λ o. IfSome o (λ m. (j : ℕ) → j < length x.now.cells
        → is_one_of waiting.new j ≡ false → j ≢ m
        → ¬ IsMovableInto P (is_gone cells.now log.now.steps) (cell_at x.now.cells j))) }
    ensures none { IfOk result (λ o. IfNone o ((j : ℕ) → j < length x.now.cells
        → ¬ IsMovableInto P (is_gone cells.now log.now.steps) (cell_at x.now.cells j))) }
{
    'looking: while let Some(member) = waiting.pop() {
        if member >= x.len() {
            continue;
        }
        let cube = x.cell(member);
        let numbers = faces.of_member(member);
        if is_movable(alloc, field, log, cells, &cube, numbers, known)? {
            return Ok(Some(member));
        }
    }
    Ok(None)
}

// The owners of these cells wait.
fn wake(owners: &Owners, numbers: &[u32], waiting: &mut Waiting) -> Result<(), AllocError>
    requires { (n : ℕ) → Contains numbers.now n → n < length owners.now }
    ensures kept { OnOk result ((j : ℕ) → is_one_of waiting.old j ≡ true
        → is_one_of waiting.new j ≡ true) }
    ensures woken { OnOk result ((n j : ℕ) → Contains numbers.now n → Names owners.now n j
        → is_one_of waiting.new j ≡ true) }
{
    for number in numbers {
        wake_all(owners.of_number(*number), waiting)?;
    }
    Ok(())
}

// These members wait.
fn wake_all(members: &[u32], waiting: &mut Waiting) -> Result<(), AllocError>
    ensures kept { OnOk result ((j : ℕ) → is_one_of waiting.old j ≡ true
        → is_one_of waiting.new j ≡ true) }
    ensures woken { OnOk result ((j : ℕ) → Contains members.now j
        → is_one_of waiting.new j ≡ true) }
{
    for member in members {
        waiting.push(*member)?;
    }
    Ok(())
}
