//! The chain complex on numbered cells.
ghost use Rattle.std.specs.Prelude.{◌≡◌, ◌<◌, ◌++◌, ℕ, [], IfOk, OnOk, length, map};
ghost use Rattle.chains.specs.Terms.{coefficient};
ghost use Rattle.elem_cubes.specs.Cells.{dimension_of};
ghost use Rattle.cell_complex.specs.Boundaries.{IsSign, AddsFacet, IsPartialBoundary, AreBoundaries};
ghost use Rattle.cell_complex.specs.Sorted.{IsSortedCells};
ghost use Rattle.cell_complex.specs.Numbering.{IsOfPair, IsComplexOf};

use crate::numbered::Numbered;
use chains::{Chain, Complex};
use elem_cubes::Cell;
use field_mod::Field;
use std::alloc::{AllocError, Global};

// Room for the two ends of each axis, where an axis is told by its bit in a byte.
const ENDS: usize = 512;

/// The chain complex whose generators are the numbers of the cells, which are the relative cells of
/// a pair: the degree of a cell is its dimension, and its boundary is the cubical boundary among
/// these cells.
pub fn complex_of<const P: u16>(
    alloc: Global,
    field: Field<P>,
    cells: &Numbered,
) -> Result<Complex<P>, AllocError>
    requires { IsOfPair cells.now }
    ensures { IfOk result (IsComplexOf P cells.now) }
{
    let (degrees, boundaries) = parts_of(alloc, field, cells)?;
    Ok(Complex::of(degrees, boundaries))
}

fn degree_of(cell: &Cell) -> u8
    ensures { result ≡ dimension_of cell.now }
{
    let dimension = cell.dim();
    let factors = cell.embedding();
    prove!(dimension <= factors);
    dimension as u8
}

// The degrees and the boundaries of the cells, in one walk.
fn parts_of<const P: u16>(
    alloc: Global,
    field: Field<P>,
    cells: &Numbered,
) -> Result<(Vec<u8>, Vec<Chain<P>>), AllocError>
    ensures degrees { IfOk result (λ parts. parts.0.items ≡ map dimension_of cells.now) }
    ensures boundaries { IfOk result (λ parts. AreBoundaries P cells.now parts.1.items
        × (length parts.1.items ≡ length cells.now)) }
    ensures sorted { IsSortedCells cells.now }
{
    let mut degrees = Vec::with_capacity(alloc, cells.len() as usize)?;
    let mut boundaries = Vec::with_capacity(alloc, cells.len() as usize)?;
    let mut lower = Vec::new(alloc);
    let mut upper = Vec::new(alloc);
    let mut near_cell = 0;
    let mut near = [0; ENDS];
    for number in 0..cells.len() {
        let cell = cells.cell_near(number, &mut near_cell);
        degrees.push(degree_of(&cell))?;
        add_facets(field, cells, &cell, &mut near, &mut lower, &mut upper)?;
        let boundary = Chain::from_terms(alloc, field, &lower)?;
        boundaries.push(boundary)?;
    }
    Ok((degrees, boundaries))
}

// Which end of which axis a facet of a cell is at: an odd number for a lower end.
fn end_of(cell: &Cell, facet: &Cell) -> usize
    ensures { result < ENDS }
{
    let axis = usize::from(cell.axes() ^ facet.axes());
    2 * axis + usize::from(cell.lower() == facet.lower())
}

// Makes `lower` the terms of the boundary of a cell, of which only those at cells of the list
// count: first the facets at the cell's own lower corner, axes ascending, then those further up,
// axes descending, so that numbers ascend. What both lists hold before is not kept. For each end of
// an axis `near` tells where the facet was found there last: cells in order have such facets in
// order.
fn add_facets<const P: u16>(
    field: Field<P>,
    cells: &Numbered,
    cell: &Cell,
    near: &mut [u32; ENDS],
    lower: &mut Vec<(u32, u16)>,
    upper: &mut Vec<(u32, u16)>,
) -> Result<(), AllocError>
    ensures { OnOk result (IsPartialBoundary P cells.now cell.now [] lower.new.items) }
{
    lower.clear();
    upper.clear();
    for facet in cell.faces() {
        let end = end_of(cell, &facet.0);
        push_end(
            field,
            cells,
            facet,
            end % 2 == 1,
            &mut near[end],
            lower,
            upper,
        )?;
    }
    add_turned(lower, upper)
}

// One more term, for a facet that is in the list, among those of its kind of end.
fn push_end<const P: u16>(
    field: Field<P>,
    cells: &Numbered,
    facet: (Cell, i8),
    is_lower: bool,
    near: &mut u32,
    lower: &mut Vec<(u32, u16)>,
    upper: &mut Vec<(u32, u16)>,
) -> Result<(), AllocError>
    requires { IsSign facet.1 }
    ensures { OnOk result (AddsFacet P cells.now facet.0 facet.1
        (lower.old.items ++ upper.old.items) (lower.new.items ++ upper.new.items)) }
{
    if is_lower {
        push_facet(field, cells, facet, near, lower)
    } else {
        push_facet(field, cells, facet, near, upper)
    }
}

// Adds terms at the end, the last of them first.
fn add_turned(terms: &mut Vec<(u32, u16)>, more: &[(u32, u16)]) -> Result<(), AllocError>
    ensures { OnOk result ((g : ℕ)
        → coefficient terms.new.items g ≡ coefficient (terms.old.items ++ more.now) g) }
{
    for place in (0..more.len()).rev() {
        terms.push(more[place])?;
    }
    Ok(())
}

// One more term, for a facet that is in the list.
fn push_facet<const P: u16>(
    field: Field<P>,
    cells: &Numbered,
    facet: (Cell, i8),
    near: &mut u32,
    terms: &mut Vec<(u32, u16)>,
) -> Result<(), AllocError>
    requires { IsSign facet.1 }
    ensures { OnOk result (AddsFacet P cells.now facet.0 facet.1 terms.old.items terms.new.items) }
{
    let (cell, sign) = facet;
    let Some(number) = cells.number_near(&cell, near) else {
        return Ok(());
    };
    terms.push((number, field.of_i64(i64::from(sign))))?;
    Ok(())
}
