//! The lines of the chains of cells.
ghost use Rattle.std.specs.Prelude.{◌≡◌, ℕ, ◌+◌, ◌%◌, ◌<◌, ◌^◌, ◌↔◌, length, slice_index, IfOk, IfErr, IsTrue};
ghost use Rattle.chains.specs.Terms.{coefficient};
ghost use Rattle.witness_sections.specs.Readings.{homotopy_lines, ArePassedOf, IsFaultOf, IsWhole, ContractsBy, projection_by};

use crate::section::Section;
use crate::tests::is_sum;
use chain_lists::combined;
use chains::Chain;
use field_mod::Field;
use std::alloc::{AllocError, Global};
use witness_types::{Law, WitnessFault};

// The cycles of the degree of a cell, each times the value of its cocycle on the cell.
fn projection<const P: u16>(
    alloc: Global,
    field: Field<P>,
    section: &Section<P>,
    cell: u32,
) -> Result<Chain<P>, AllocError>
    requires cell { cell < length section.now.complex.boundaries }
    requires whole { IsWhole section.now }
    ensures { IfOk result (λ c. (g : ℕ) → coefficient c g
        ≡ projection_by section.now.degrees.items
        (slice_index section.now.complex.degrees cell) cell g % P) }
{
    let degree = usize::from(section.complex.degree(cell));
    if degree >= section.degrees.len() {
        return Ok(Chain::empty(alloc));
    }
    let kept = &section.degrees[degree];
    combined(alloc, field, &kept.cycles, &kept.at_cocycles[cell as usize])
}

// Whether the chains contract the pair to its cycles, at a cell.
fn contracts<const P: u16>(
    alloc: Global,
    field: Field<P>,
    section: &Section<P>,
    cell: u32,
) -> Result<bool, AllocError>
    requires cell { cell < length section.now.complex.boundaries }
    requires whole { IsWhole section.now }
    ensures { IfOk result (λ b. IsTrue b ↔ ContractsBy section.now cell) }
{
    let complex = &section.complex;
    let projected = projection(alloc, field, section, cell)?;
    let filled = complex.boundary_of(alloc, field, &section.homotopies[cell as usize])?;
    let around = combined(alloc, field, &section.homotopies, complex.boundary(cell))?;
    is_sum(field, projected, &filled, &around, cell)
}

/// The lines of the chains of all cells: the number of the line behind them, or the first fault.
pub(crate) fn test_contractions<const P: u16>(
    alloc: Global,
    field: Field<P>,
    section: &Section<P>,
    line: u64,
) -> Result<u64, WitnessFault>
    requires whole { IsWhole section.now }
    requires room { line + length section.now.homotopies.items < 2 ^ 63 }
    ensures ok { IfOk result (ArePassedOf section.now homotopy_lines line) }
    ensures next { IfOk result (λ next. next ≡ line + length section.now.homotopies.items) }
    ensures err { IfErr result (IsFaultOf section.now homotopy_lines line) }
{
    for cell in 0..section.complex.len() {
        let contracted = contracts(alloc, field, section, cell)?;
        if !contracted {
            return Err(WitnessFault::At {
                line: line + u64::from(cell),
                law: Law::Contraction,
            });
        }
    }
    Ok(line + section.homotopies.len() as u64)
}
