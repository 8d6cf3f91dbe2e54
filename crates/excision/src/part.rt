//! The reduction of a closed part of what a log leaves.
ghost use Rattle.std.specs.Prelude.{◌≡◌, ℕ, ◌<◌, ◌++◌, List, length, IfOk};
ghost use Rattle.std.specs.List.{Contains};
ghost use Rattle.field_mod.specs.Modular.{Same};
ghost use Rattle.algebraic_reduction.specs.Laws.{left_of};
ghost use Rattle.algebraic_reduction.specs.Restrictions.{IsClosedPart};
ghost use Rattle.excision.specs.Left.{is_one_of};
ghost use Rattle.excision.specs.Taking.{AreFurtherWithin};

use algebraic_reduction::Log;
use field_mod::Field;
use std::alloc::{AllocError, Global};

/// Further steps by pairs of these generators, until what is left of the boundary of each is 0.
/// What is left of the boundary of each is on them at the start. Each generator has its turn once.
pub fn reduce_part<const P: u16>(
    alloc: Global,
    field: Field<P>,
    log: Log<P>,
    part: &[u32],
) -> Result<Log<P>, AllocError>
    requires inside { (n : ℕ) → Contains part.now n → n < length log.complex.boundaries }
    requires closed { IsClosedPart P (left_of P log.complex log.steps) (is_one_of part.now) }
    ensures complex { IfOk result (λ l. l.complex ≡ log.entry.complex) }
    ensures further { IfOk result (λ l. AreFurtherWithin (is_one_of part.now) log.entry.steps
        l.steps) }
    ensures nothing_left { IfOk result (λ l. (h g : ℕ) → Contains part.now h
        → Same P (left_of P l.complex l.steps h g) 0) }
{
    let mut log = log;
    for i in 0..part.len() {
        let coface = part[i];
        let _ = log.step_count();
        if !log.alive(coface) {
            continue;
        }
        let boundary = log.left_boundary(alloc, field, coface)?;
        if boundary.is_empty() {
            continue;
        }
        let (face, _) = boundary.term(0);
        log = log.reduce_pair(field, face, coface)?;
    }
    let _ = log.step_count();
    Ok(log)
}
