//! The part of a pair, made of a basis of its homology.
ghost use Rattle.std.specs.Prelude.{◌≡◌, ◌<◌, ◌≤◌, ◌+◌, ℕ, List, length, IfOk, OnOk, IsTrue};
ghost use Rattle.std.specs.List.{Contains};
ghost use Rattle.elem_cubes.specs.Cells.{Factor};
ghost use Rattle.cube_sets.specs.Sets.{dimensions_agree};
ghost use Rattle.chains.specs.Terms.{nth_chain};
ghost use Rattle.cell_complex.specs.Numbering.{by_cell, IsRelativeComplex};
ghost use Rattle.homology_basis.specs.Bases.{in_degree, homotopy_in};
ghost use Rattle.witness_laws.specs.Inputs.{all_cells};
ghost use Rattle.witness_parts.specs.Filed.{IsFiled, AreFiled, AddsCycles, AddsChains};
ghost use Rattle.witness_parts.specs.Filed.{HasCycles, HasChains};
ghost use Rattle.witness_parts.specs.Tables.{section_by, IsPartOf};

use crate::file_numbers::filed;
use cell_complex::Numbered;
use chains::Chain;
use cube_sets::CubeSet;
use field_mod::Field;
use homology_basis::Basis;
use std::alloc::{AllocError as NoMemory, Global};
use witness_types::PairPart;
use witness_writing::{both, faces};

// The cycle of a number by the numbers in the file.
fn filed_cycle<const P: u16>(
    alloc: Global,
    field: Field<P>,
    degree: u8,
    number: u32,
    basis: &Basis<P>,
    cells: &Numbered,
    all: &Numbered,
) -> Result<Chain<P>, NoMemory>
    requires number { number < length (in_degree basis.now.cycles degree) }
    requires complex { length basis.now.log.complex.boundaries ≡ length cells.now }
    requires inside { (q : List Factor) → Contains cells.now q → Contains all.now q }
    requires few { length all.now ≤ 4096 }
    ensures { IfOk result (IsFiled P all.now
        (by_cell cells.now (nth_chain (in_degree basis.now.cycles degree) number))) }
{
    // Its clauses say what a basis is.
    let _dimension = basis.dimension(degree);
    filed(alloc, field, basis.cycle(degree, number), cells, all)
}

// The cocycle of a number.
fn filed_cocycle<const P: u16>(
    alloc: Global,
    field: Field<P>,
    degree: u8,
    number: u32,
    basis: &Basis<P>,
    cells: &Numbered,
    all: &Numbered,
) -> Result<Chain<P>, NoMemory>
    requires number { number < length (in_degree basis.now.cycles degree) }
    requires complex { length basis.now.log.complex.boundaries ≡ length cells.now }
    requires inside { (q : List Factor) → Contains cells.now q → Contains all.now q }
    requires few { length all.now ≤ 4096 }
    ensures { IfOk result (IsFiled P all.now
        (by_cell cells.now (nth_chain (in_degree basis.now.cocycles degree) number))) }
{
    // Its clauses say what a basis is.
    let _dimension = basis.dimension(degree);
    filed(alloc, field, basis.cocycle(degree, number), cells, all)
}

// The chain that contracts at a cell.
fn filed_row<const P: u16>(
    alloc: Global,
    field: Field<P>,
    generator: u32,
    basis: &Basis<P>,
    cells: &Numbered,
    all: &Numbered,
) -> Result<Chain<P>, NoMemory>
    requires number { generator < length cells.now }
    requires complex { length basis.now.log.complex.boundaries ≡ length cells.now }
    requires inside { (q : List Factor) → Contains cells.now q → Contains all.now q }
    requires few { length all.now ≤ 4096 }
    ensures { IfOk result (IsFiled P all.now
        (by_cell cells.now (homotopy_in P basis.now generator))) }
{
    // Its clauses say what a basis is.
    let _dimension = basis.dimension(0);
    let row = basis.contraction_row(alloc, field, generator)?;
    let chain = filed(alloc, field, &row, cells, all)?;
    Ok(chain)
}

// Adds the cycles of a degree.
fn push_cycles<const P: u16>(
    alloc: Global,
    field: Field<P>,
    degree: u8,
    basis: &Basis<P>,
    cells: &Numbered,
    all: &Numbered,
    to: &mut Vec<(u8, Chain<P>)>,
) -> Result<(), NoMemory>
    requires complex { length basis.now.log.complex.boundaries ≡ length cells.now }
    requires inside { (q : List Factor) → Contains cells.now q → Contains all.now q }
    requires few { length all.now ≤ 4096 }
    ensures { OnOk result (AddsCycles P all.now degree
        ((section_by P cells.now basis.now).size degree)
        ((section_by P cells.now basis.now).cycle degree) to.old.items to.new.items) }
{
    for number in 0..basis.dimension(degree) {
        let cycle = filed_cycle(alloc, field, degree, number, basis, cells, all)?;
        to.push((degree, cycle))?;
    }
    Ok(())
}

// Adds the cocycles of a degree.
fn push_cocycles<const P: u16>(
    alloc: Global,
    field: Field<P>,
    degree: u8,
    basis: &Basis<P>,
    cells: &Numbered,
    all: &Numbered,
    to: &mut Vec<Chain<P>>,
) -> Result<(), NoMemory>
    requires complex { length basis.now.log.complex.boundaries ≡ length cells.now }
    requires inside { (q : List Factor) → Contains cells.now q → Contains all.now q }
    requires few { length all.now ≤ 4096 }
    ensures { OnOk result (AddsChains P all.now ((section_by P cells.now basis.now).size degree)
        ((section_by P cells.now basis.now).cocycle degree) to.old.items to.new.items) }
{
    for number in 0..basis.dimension(degree) {
        let cocycle = filed_cocycle(alloc, field, degree, number, basis, cells, all)?;
        to.push(cocycle)?;
    }
    Ok(())
}

// The cycles by degree up to a last one.
fn cycles_of<const P: u16>(
    alloc: Global,
    field: Field<P>,
    top: u8,
    basis: &Basis<P>,
    cells: &Numbered,
    all: &Numbered,
) -> Result<Vec<(u8, Chain<P>)>, NoMemory>
    requires complex { length basis.now.log.complex.boundaries ≡ length cells.now }
    requires inside { (q : List Factor) → Contains cells.now q → Contains all.now q }
    requires few { length all.now ≤ 4096 }
    ensures { IfOk result (λ cycles. HasCycles P all.now (top + 1)
        (section_by P cells.now basis.now).size (section_by P cells.now basis.now).cycle
        cycles.items) }
{
    let mut cycles = Vec::new(alloc);
    for degree in 0..u16::from(top) + 1 {
        push_cycles(alloc, field, degree as u8, basis, cells, all, &mut cycles)?;
    }
    Ok(cycles)
}

// The cocycles by degree up to a last one.
fn cocycles_of<const P: u16>(
    alloc: Global,
    field: Field<P>,
    top: u8,
    basis: &Basis<P>,
    cells: &Numbered,
    all: &Numbered,
) -> Result<Vec<Chain<P>>, NoMemory>
    requires complex { length basis.now.log.complex.boundaries ≡ length cells.now }
    requires inside { (q : List Factor) → Contains cells.now q → Contains all.now q }
    requires few { length all.now ≤ 4096 }
    ensures { IfOk result (λ cocycles. HasChains P all.now (top + 1)
        (section_by P cells.now basis.now).size (section_by P cells.now basis.now).cocycle
        cocycles.items) }
{
    let mut cocycles = Vec::new(alloc);
    for degree in 0..u16::from(top) + 1 {
        push_cocycles(alloc, field, degree as u8, basis, cells, all, &mut cocycles)?;
    }
    Ok(cocycles)
}

// The chains that contract, cell by cell.
fn rows_of<const P: u16>(
    alloc: Global,
    field: Field<P>,
    basis: &Basis<P>,
    cells: &Numbered,
    all: &Numbered,
) -> Result<Vec<Chain<P>>, NoMemory>
    requires complex { length basis.now.log.complex.boundaries ≡ length cells.now }
    requires inside { (q : List Factor) → Contains cells.now q → Contains all.now q }
    requires few { length all.now ≤ 4096 }
    ensures { IfOk result (λ rows. AreFiled P all.now (length cells.now)
        (λ s. by_cell cells.now (homotopy_in P basis.now s)) rows.items) }
{
    let mut rows = Vec::new(alloc);
    for generator in 0..cells.len() {
        rows.push(filed_row(alloc, field, generator, basis, cells, all)?)?;
    }
    Ok(rows)
}

/// The part of the pair of x and a in a witness, by a basis of its homology over its relative
/// cells: the cycles, the cocycles and the contraction of the basis, up to a last degree.
pub fn pair_part<const P: u16>(
    alloc: Global,
    field: Field<P>,
    x: &CubeSet,
    a: &CubeSet,
    cells: &Numbered,
    basis: &Basis<P>,
    top: u8,
) -> Result<PairPart<P>, NoMemory>
    requires agree { IsTrue (dimensions_agree x.now.dimension a.now.dimension) }
    requires few { length (all_cells x.now.cells a.now.cells) ≤ 4096 }
    requires relative { IsRelativeComplex P x.now.cells a.now.cells cells.now
        basis.now.log.complex }
    ensures { IfOk result (IsPartOf top x.now.cells a.now.cells
        (section_by P cells.now basis.now)) }
{
    // Its clauses say that the cells stand in order.
    let _count = cells.len();
    let set = both(alloc, x, a)?;
    let all = faces(alloc, &set)?;
    let cycles = cycles_of(alloc, field, top, basis, cells, &all)?;
    let cocycles = cocycles_of(alloc, field, top, basis, cells, &all)?;
    let homotopy = rows_of(alloc, field, basis, cells, &all)?;
    Ok(PairPart {
        cycles,
        cocycles,
        homotopy,
    })
}
