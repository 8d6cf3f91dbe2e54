//! The boundary of a cell among numbered cells.
ghost use Rattle.std.specs.Prelude.{IfOk, OnOk};
ghost use Rattle.cell_complex.specs.Boundaries.{IsSign, AddsFacet, IsBoundaryAmong};

use cell_complex::Numbered;
use chains::Chain;
use elem_cubes::Cell;
use field_mod::Field;
use std::alloc::{AllocError, Global};

/// The boundary of a cell, a chain over the numbers of its facets.
pub(crate) fn boundary_of<const P: u16>(
    alloc: Global,
    field: Field<P>,
    cells: &Numbered,
    cell: &Cell,
) -> Result<Chain<P>, AllocError>
    ensures { IfOk result (IsBoundaryAmong P cells.now cell.now) }
{
    let mut terms = Vec::new(alloc);
    for facet in cell.faces() {
        push_facet(field, cells, facet, &mut terms)?;
    }
    Chain::from_terms(alloc, field, &terms)
}

// One more term, for a facet that has a number.
fn push_facet<const P: u16>(
    field: Field<P>,
    cells: &Numbered,
    facet: (Cell, i8),
    terms: &mut Vec<(u32, u16)>,
) -> Result<(), AllocError>
    requires { IsSign facet.1 }
    ensures { OnOk result (AddsFacet P cells.now facet.0 facet.1 terms.old.items terms.new.items) }
{
    let (cell, sign) = facet;
    let Some(number) = cells.number(&cell) else {
        return Ok(());
    };
    terms.push((number, field.of_i64(i64::from(sign))))?;
    Ok(())
}
