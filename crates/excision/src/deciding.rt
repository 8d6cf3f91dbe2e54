//! Whether a list of cells with all their faces is acyclic.
ghost use Rattle.std.specs.Prelude.{◌≡◌, ◌↔◌, ◌<◌, IfOk, IsTrue};
ghost use Rattle.cell_complex.specs.RelativeComplex.{IsClosedList};
ghost use Rattle.cell_complex.specs.Acyclic.{IsAcyclic};
ghost use Rattle.excision.specs.Laws.{IsOneVertex};

use algebraic_reduction::Log;
use cell_complex::{Numbered, complex_of};
use field_mod::Field;
use std::alloc::{AllocError, Global};

// Whether one generator alone is in no step, and that is a vertex.
fn is_one_vertex<const P: u16>(log: &Log<P>) -> bool
    ensures { IsTrue result ↔ IsOneVertex log.now.complex log.now.steps }
{
    let mut found = false;
    for generator in 0..log.complex().len() {
        if log.alive(generator) {
            if found {
                return false;
            }
            if log.complex().degree(generator) != 0 {
                return false;
            }
            found = true;
        }
    }
    found
}

/// Whether the cells, among which are all their faces, are acyclic modulo `P`.
pub fn is_acyclic<const P: u16>(
    alloc: Global,
    field: Field<P>,
    cells: &Numbered,
) -> Result<bool, AllocError>
    requires { IsClosedList cells.now }
    ensures { IfOk result (λ b. IsTrue b ↔ IsAcyclic P cells.now) }
{
    let _ = cells.len();
    let complex = complex_of(alloc, field, cells)?;
    let log = Log::start(alloc, complex)?.reduce_all(field)?;
    let _ = log.step_count();
    Ok(is_one_vertex(&log))
}
