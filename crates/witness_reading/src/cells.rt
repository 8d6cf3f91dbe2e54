//! The cells of a pair by the numbers that a file has for them.
ghost use Rattle.std.specs.Prelude.{◌≡◌, ◌+◌, ◌-◌, ◌^◌, ◌≤◌, ◌<◌, suc, true, List, length, map, IfOk};
ghost use Rattle.std.specs.List.{Contains};
ghost use Rattle.elem_cubes.specs.Cells.{Factor, dimension_of};
ghost use Rattle.cube_sets.specs.Sets.{dimensions_agree};
ghost use Rattle.cell_complex.specs.Numbering.{number_of};
ghost use Rattle.witness_laws.specs.Inputs.{all_cells, relative_cells};
ghost use Rattle.witness_reading.specs.Kinds.{kind_among, pair_table, pair_numbers, pair_wanted};

use cell_complex::{Numbered, relative};
use cube_sets::CubeSet;
use elem_cubes::Cell;
use std::alloc::{AllocError, Global};
use witness_writing::{both, faces};

/// The kind of each cell of both sets; the number of each relative cell, and beside it the kind of
/// the cells that its chain may name.
#[derive(Drop)]
pub(crate) struct PairCells {
    pub(crate) table: Vec<u8>,
    pub(crate) numbers: Vec<u32>,
    pub(crate) wanted: Vec<u8>,
}

// The relative cells.
#[tactic(auto, using(witness_writing::proofs::Counting::kept_are))]
fn kept_cells(alloc: Global, x: &CubeSet, a: &CubeSet) -> Result<Numbered, AllocError>
    ensures { IfOk result (λ cells. cells ≡ relative_cells x.now.cells a.now.cells) }
{
    match relative(alloc, x, a) {
        Ok(cells) => {
            // Its clauses say that the cells stand in order.
            let _count = cells.len();
            Ok(cells)
        }
        Err(_) => Err(AllocError),
    }
}

// The kind of a cell: one more than its dimension where it is among the relative cells, else 0.
#[tactic(auto, using(crate::proofs::Tables::kind_some, crate::proofs::Tables::kind_none))]
fn kind_in(kept: &Numbered, cell: &Cell) -> u8
    ensures { result ≡ kind_among kept.now cell.now }
{
    match kept.number(cell) {
        Some(_) => cell.dim() as u8 + 1,
        None => 0,
    }
}

// The kinds of cells.
fn table_of(alloc: Global, all: &Numbered, kept: &Numbered) -> Result<Vec<u8>, AllocError>
    ensures { IfOk result (λ table. table.items ≡ map (kind_among kept.now) all.now) }
{
    let mut table = Vec::new(alloc);
    for place in 0..all.len() {
        table.push(kind_in(kept, &all.cell(place)))?;
    }
    Ok(table)
}

// The number in the file of one of these cells.
#[tactic(auto, using(cell_complex::proofs::Sorting::number_below))]
fn number_in(all: &Numbered, cell: &Cell) -> u32
    requires inside { Contains all.now cell.now }
    requires few { length all.now ≤ 4096 }
    ensures { result ≡ suc (number_of all.now cell.now) }
{
    let Some(number) = all.number(cell) else {
        unreachable!();
    };
    number + 1
}

// The numbers in the file of some of all cells.
fn numbers_of(alloc: Global, all: &Numbered, kept: &Numbered) -> Result<Vec<u32>, AllocError>
    requires inside { (q : List Factor) → Contains kept.now q → Contains all.now q }
    requires few { length all.now ≤ 4096 }
    ensures { IfOk result
        (λ numbers. numbers.items ≡ map (λ q. suc (number_of all.now q)) kept.now) }
{
    let mut numbers = Vec::new(alloc);
    for place in 0..kept.len() {
        numbers.push(number_in(all, &kept.cell(place)))?;
    }
    Ok(numbers)
}

// The kinds of the cells that the chains of cells may name.
fn wanted_of(alloc: Global, kept: &Numbered) -> Result<Vec<u8>, AllocError>
    ensures { IfOk result
        (λ wanted. wanted.items ≡ map (λ q. suc (dimension_of q + 1)) kept.now) }
{
    let mut wanted = Vec::new(alloc);
    for place in 0..kept.len() {
        wanted.push(kept.cell(place).dim() as u8 + 2)?;
    }
    Ok(wanted)
}

/// The cells of a pair.
pub(crate) fn pair_cells(alloc: Global, x: &CubeSet, a: &CubeSet) -> Result<PairCells, AllocError>
    requires agree { dimensions_agree x.now.dimension a.now.dimension ≡ true }
    requires few { length (all_cells x.now.cells a.now.cells) ≤ 4096 }
    ensures table { IfOk result (λ c. c.table.items ≡ pair_table x.now.cells a.now.cells) }
    ensures numbers { IfOk result (λ c. c.numbers.items ≡ pair_numbers x.now.cells a.now.cells) }
    ensures wanted { IfOk result (λ c. c.wanted.items ≡ pair_wanted x.now.cells a.now.cells) }
    ensures short { IfOk result (λ c. length c.table.items < 2 ^ 32 - 1) }
    ensures beside { IfOk result (λ c. length c.wanted.items ≡ length c.numbers.items) }
{
    let set = both(alloc, x, a)?;
    let all = faces(alloc, &set)?;
    let kept = kept_cells(alloc, x, a)?;
    let table = table_of(alloc, &all, &kept)?;
    let numbers = numbers_of(alloc, &all, &kept)?;
    let wanted = wanted_of(alloc, &kept)?;
    Ok(PairCells {
        table,
        numbers,
        wanted,
    })
}
