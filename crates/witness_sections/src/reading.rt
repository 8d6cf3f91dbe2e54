//! Chains over the numbers of a file, as chains over the numbers of some of its cells.
ghost use Rattle.std.specs.Prelude.{◌≡◌, ◌-◌, ◌<◌, ◌≤◌, length, map, IfOk};
ghost use Rattle.elem_cubes.specs.Laws.{cell_at};
ghost use Rattle.witness_types.specs.Parts.{beside, degrees_of};
ghost use Rattle.witness_sections.specs.Readings.{IsRead, AreRead, IsNamed, AreNamed};

use cell_complex::Numbered;
use chains::Chain;
use elem_cubes::Cell;
use field_mod::Field;
use std::alloc::{AllocError, Global};

/// The cell of a number in the file, where numbers count from 1.
pub fn cell_of(cells: &Numbered, number: u32) -> Cell
    requires positive { 0 < number }
    requires inside { number ≤ length cells.now }
    ensures { result ≡ cell_at cells.now (number - 1) }
{
    cells.cell(number - 1)
}

/// A chain over numbers of the file, as one over the numbers of other cells. Its terms at cells
/// that are not among these are dropped.
pub fn read_chain<const P: u16>(
    alloc: Global,
    field: Field<P>,
    cells: &Numbered,
    to: &Numbered,
    chain: &Chain<P>,
) -> Result<Chain<P>, AllocError>
    requires { IsNamed (length cells.now) chain.now }
    ensures { IfOk result (IsRead P cells.now to.now chain.now) }
{
    // Its clauses say that the cells stand in order.
    let _sorted = to.len();
    let mut terms = Vec::with_capacity(alloc, chain.len())?;
    for place in 0..chain.len() {
        let (number, coefficient) = chain.term(place);
        if let Some(other) = to.number(&cell_of(cells, number)) {
            terms.push((other, coefficient))?;
        }
    }
    let read = Chain::from_terms(alloc, field, &terms)?;
    Ok(read)
}

/// All chains of a list.
pub fn read_chains<const P: u16>(
    alloc: Global,
    field: Field<P>,
    cells: &Numbered,
    to: &Numbered,
    chains: &[Chain<P>],
) -> Result<Vec<Chain<P>>, AllocError>
    requires { AreNamed (length cells.now) chains.now }
    ensures { IfOk result (λ all. AreRead P cells.now to.now chains.now all.items) }
{
    let mut all = Vec::with_capacity(alloc, chains.len())?;
    for place in 0..chains.len() {
        all.push(read_chain(alloc, field, cells, to, &chains[place])?)?;
    }
    Ok(all)
}

/// The cycles of one degree.
pub fn cycles_beside<const P: u16>(
    alloc: Global,
    field: Field<P>,
    cells: &Numbered,
    to: &Numbered,
    cycles: &[(u8, Chain<P>)],
    degree: u8,
) -> Result<Vec<Chain<P>>, AllocError>
    requires { AreNamed (length cells.now) (map (λ z. z.1) cycles.now) }
    ensures { IfOk result (λ all. AreRead P cells.now to.now
        (beside degree (degrees_of cycles.now) (map (λ z. z.1) cycles.now)) all.items) }
{
    let mut all = Vec::new(alloc);
    for place in 0..cycles.len() {
        let cycle = &cycles[place];
        if cycle.0 == degree {
            all.push(read_chain(alloc, field, cells, to, &cycle.1)?)?;
        }
    }
    Ok(all)
}

/// The cocycles of one degree, where each has that of the cycle at its place.
pub fn cocycles_beside<const P: u16>(
    alloc: Global,
    field: Field<P>,
    cells: &Numbered,
    to: &Numbered,
    cycles: &[(u8, Chain<P>)],
    cocycles: &[Chain<P>],
    degree: u8,
) -> Result<Vec<Chain<P>>, AllocError>
    requires sizes { length cocycles.now ≡ length cycles.now }
    requires named { AreNamed (length cells.now) cocycles.now }
    ensures { IfOk result (λ all. AreRead P cells.now to.now
        (beside degree (degrees_of cycles.now) cocycles.now) all.items) }
{
    let mut all = Vec::new(alloc);
    for place in 0..cocycles.len() {
        if cycles[place].0 == degree {
            all.push(read_chain(alloc, field, cells, to, &cocycles[place])?)?;
        }
    }
    Ok(all)
}
