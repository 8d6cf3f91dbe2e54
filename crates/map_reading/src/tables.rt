//! What the lines of a cell of the domain may name: tables of kinds and numbers of cells.
ghost use Rattle.std.specs.Prelude.{◌≡◌, ◌<◌, ◌≤◌, ◌↔◌, ◌+◌, List, suc, map, filter, length, slice_index, IfOk, IsTrue, Bool};
ghost use Rattle.std.specs.List.{Contains};
ghost use Rattle.elem_cubes.specs.Cells.{Factor, dimension_of};
ghost use Rattle.cube_sets.specs.Closures.{cells_of};
ghost use Rattle.cell_complex.specs.Numbering.{number_of};
ghost use Rattle.acyclic_values.specs.CarriedMaps.{GoesInto};
ghost use Rattle.map_checks.specs.Faults.{AreNamed};
ghost use Rattle.witness_reading.specs.Kinds.{kinds_where};
ghost use Rattle.map_lines.specs.Cells.{value_in, all_kinds};

use cell_complex::Numbered;
use cube_maps::CubeMap;
use cube_sets::CubeSet;
use elem_cubes::Cell;
use map_checks::value_at;
use std::alloc::{AllocError as NoMemory, Global};

/// The kind of a cell: one more than its dimension.
pub(crate) fn kind_of(cell: &Cell) -> u8
    ensures value { result ≡ suc (dimension_of cell.now) }
    ensures few { result ≤ 5 }
{
    cell.dim() as u8 + 1
}

/// The value of the map at the cell of the domain in this place, in order.
#[tactic(auto, using(witness_writing::proofs::Filling::value_is, witness_writing::proofs::Filling::cell_listed))]
pub(crate) fn value_of(
    alloc: Global,
    map: &CubeMap,
    domain: &CubeSet,
    range: &CubeSet,
    cells: &Numbered,
    place: u32,
) -> Result<Vec<Cell>, NoMemory>
    requires cells { cells.now ≡ cells_of domain.now.cells }
    requires inside { place < length cells.now }
    requires named { AreNamed map.now.named domain.now.cells }
    requires into { GoesInto map.now.named domain.now.cells range.now.cells }
    ensures { IfOk result (λ value. value.items
        ≡ value_in map.now.named domain.now.cells range.now.cells place) }
{
    value_at(alloc, map, domain, &cells.cell(place))
}

// The number in the file of one of these cells, which are few.
#[tactic(auto, using(cell_complex::proofs::Sorting::number_below))]
fn number_in(all: &Numbered, cell: &Cell) -> u32
    requires inside { Contains all.now cell.now }
    requires few { length all.now ≤ 4096 }
    ensures { result ≡ suc (number_of all.now cell.now) }
{
    let Some(number) = all.number(cell) else {
        unreachable!();
    };
    number + 1
}

/// The numbers in the file of some of all cells.
pub(crate) fn numbers_of(
    alloc: Global,
    all: &Numbered,
    value: &[Cell],
) -> Result<Vec<u32>, NoMemory>
    requires inside { (q : List Factor) → Contains value.now q → Contains all.now q }
    requires few { length all.now ≤ 4096 }
    ensures { IfOk result (λ numbers. numbers.items
        ≡ map (λ q. suc (number_of all.now q)) value.now) }
{
    let mut numbers = Vec::with_capacity(alloc, value.len())?;
    for place in 0..value.len() {
        numbers.push(number_in(all, &value[place]))?;
    }
    Ok(numbers)
}

/// The kinds of the cells of one dimension more than each of these.
pub(crate) fn kinds_over(alloc: Global, value: &[Cell]) -> Result<Vec<u8>, NoMemory>
    ensures { IfOk result (λ kinds. kinds.items ≡ map (λ q. suc (dimension_of q + 1)) value.now) }
{
    let mut kinds = Vec::with_capacity(alloc, value.len())?;
    for place in 0..value.len() {
        kinds.push(value[place].dim() as u8 + 2)?;
    }
    Ok(kinds)
}

/// The kinds of all cells.
pub(crate) fn kinds_of_all(alloc: Global, all: &Numbered) -> Result<Vec<u8>, NoMemory>
    ensures { IfOk result (λ kinds. kinds.items ≡ all_kinds all.now) }
{
    let mut kinds = Vec::new(alloc);
    for place in 0..all.len() {
        kinds.push(kind_of(&all.cell(place)))?;
    }
    Ok(kinds)
}

// Whether the number at a place is this one.
fn is_next(numbers: &[u32], place: usize, number: u32) -> bool
    ensures { IsTrue result ↔ ((place < length numbers.now) × (slice_index numbers.now place
        ≡ number)) }
{
    place < numbers.len() && numbers[place] == number
}

/// The kinds of those of all cells that a value has, by their numbers; 0 for others.
pub(crate) fn kinds_in(
    alloc: Global,
    all: &Numbered,
    value: &[Cell],
    numbers: &[u32],
) -> Result<Vec<u8>, NoMemory>
    requires { numbers.now ≡ map (λ q. suc (number_of all.now q)) value.now }
    ensures { IfOk result (λ kinds. (on : List Factor → Bool) (range : List (List Factor))
        → all.now ≡ cells_of range → value.now ≡ filter on all.now
        → kinds.items ≡ kinds_where on all.now) }
{
    let mut kinds = Vec::new(alloc);
    let mut place = 0;
    for cell in 0..all.len() {
        if is_next(numbers, place, cell + 1) {
            kinds.push(kind_of(&value[place]))?;
            place += 1;
        } else {
            kinds.push(0)?;
        }
    }
    Ok(kinds)
}
