//! Bases are made from logs.
ghost use Rattle.std.specs.Prelude.{◌≡◌, ℕ, IfOk};
ghost use Rattle.algebraic_reduction.specs.Laws.{NothingLeft};
ghost use Rattle.homology_basis.specs.Bases.{BasisOfLog, in_degree, IsBasisByCycles, IsBasisWithContraction};

use crate::bases::Basis;
use crate::classes::Classes;
use crate::cycles::CycleBasis;
use algebraic_reduction::Log;
use field_mod::Field;
use std::alloc::{AllocError as NoMemory, Global};

/// The basis that a log gives in which no boundary is left. Its cycle of number j in degree k is
/// the inclusion of the j-th generator of degree k that is left, by ascending number, times the
/// inverse of its first coefficient.
pub fn basis<const P: u16>(
    alloc: Global,
    field: Field<P>,
    log: Log<P>,
) -> Result<Basis<P>, NoMemory>
    requires { NothingLeft P log.complex log.steps }
    ensures log { IfOk result (λ b. b.log ≡ log.entry) }
    ensures basis { IfOk result (IsBasisWithContraction P) }
{
    // The cocycles are found by the rows in which their generators stand.
    let indexed = log.index_rows()?;
    let basis = basis_by_rows(alloc, field, indexed)?;
    Ok(basis)
}

// The basis of a log whose rows have an index, where it is to be quick.
fn basis_by_rows<const P: u16>(
    alloc: Global,
    field: Field<P>,
    log: Log<P>,
) -> Result<Basis<P>, NoMemory>
    requires { NothingLeft P log.complex log.steps }
    ensures log { IfOk result (λ b. b.log ≡ log.entry) }
    ensures basis { IfOk result (IsBasisWithContraction P) }
{
    let classes = Classes::of(alloc, field, &log, true)?;
    Ok(Basis { log, classes })
}

/// The same basis without its cocycles, which take most of the time: the same cycles.
pub fn cycle_basis<const P: u16>(
    alloc: Global,
    field: Field<P>,
    log: Log<P>,
) -> Result<CycleBasis<P>, NoMemory>
    requires { NothingLeft P log.complex log.steps }
    ensures log { IfOk result (λ b. b.log ≡ log.entry) }
    ensures basis { IfOk result (IsBasisByCycles P) }
    ensures same { IfOk result (λ b. (c : BasisOfLog) → c.log ≡ log.entry
        → IsBasisWithContraction P c → (k : ℕ) → in_degree b.cycles k ≡ in_degree c.cycles k) }
{
    let classes = Classes::of(alloc, field, &log, false)?;
    Ok(CycleBasis { log, classes })
}
