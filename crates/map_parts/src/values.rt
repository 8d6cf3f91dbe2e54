//! Contractions of the values of a map, by the numbers of a witness file.
ghost use Rattle.std.specs.Prelude.{◌≡◌, ◌<◌, ◌≤◌, suc, List, length, map, IfOk};
ghost use Rattle.std.specs.List.{Contains};
ghost use Rattle.elem_cubes.specs.Cells.{Factor};
ghost use Rattle.elem_cubes.specs.Laws.{cell_at};
ghost use Rattle.cube_sets.specs.Closures.{cells_of};
ghost use Rattle.cell_complex.specs.Acyclic.{IsAcyclic};
ghost use Rattle.cell_complex.specs.Numbering.{by_cell, number_of};
ghost use Rattle.cell_complex.specs.RelativeComplex.{IsClosedList};
ghost use Rattle.cell_complex.specs.Sorted.{IsSortedCells};
ghost use Rattle.acyclic_values.specs.CarriedMaps.{GoesInto};
ghost use Rattle.acyclic_values.specs.Contracted.{IsContracted, homotopy_in};
ghost use Rattle.map_checks.specs.Faults.{AreNamed};
ghost use Rattle.witness_parts.specs.Filed.{IsFiled, AreFiled};
ghost use Rattle.witness_writing.specs.Runs.{value_in};
ghost use Rattle.map_parts.specs.Values.{Carries, IsFiledContraction, AreFiledContractions};

use acyclic_values::{Contraction, ValueFault, contract_value};
use cell_complex::Numbered;
use chains::Chain;
use cube_maps::CubeMap;
use cube_sets::CubeSet;
use elem_cubes::Cell;
use field_mod::Field;
use map_checks::value_at;
use std::alloc::{AllocError as NoMemory, Global};
use witness_parts::filed;

// The contraction of a list of cells that is acyclic.
fn contraction_of<const P: u16>(
    alloc: Global,
    field: Field<P>,
    value: &[Cell],
) -> Result<Contraction<P>, NoMemory>
    requires sorted { IsSortedCells value.now }
    requires closed { IsClosedList value.now }
    requires acyclic { IsAcyclic P value.now }
    ensures { IfOk result (IsContracted P value.now) }
{
    match contract_value(alloc, field, value) {
        Ok(contraction) => Ok(contraction),
        Err(ValueFault::NoMemory) => Err(NoMemory),
        Err(ValueFault::Hole(_)) => unreachable!(),
    }
}

// The number in the file of one of these cells, which are few.
#[tactic(auto, using(cell_complex::proofs::Sorting::number_below))]
fn number_in(all: &Numbered, cell: &Cell) -> u32
    requires inside { Contains all.now cell.now }
    requires few { length all.now ≤ 4096 }
    ensures { result ≡ suc (number_of all.now cell.now) }
{
    let Some(number) = all.number(cell) else {
        unreachable!();
    };
    number + 1
}

// The number in the file of the vertex of a contraction.
fn filed_vertex<const P: u16>(contraction: &Contraction<P>, value: &Numbered, all: &Numbered) -> u32
    requires contracted { IsContracted P value.now contraction.now }
    requires inside { (q : List Factor) → Contains value.now q → Contains all.now q }
    requires few { length all.now ≤ 4096 }
    ensures { result ≡ suc (number_of all.now (cell_at value.now contraction.now.vertex)) }
{
    let cell = value.cell(contraction.vertex());
    number_in(all, &cell)
}

// The chain of a place.
fn filed_row<const P: u16>(
    alloc: Global,
    field: Field<P>,
    place: u32,
    contraction: &Contraction<P>,
    value: &Numbered,
    all: &Numbered,
) -> Result<Chain<P>, NoMemory>
    requires place { place < length value.now }
    requires contracted { IsContracted P value.now contraction.now }
    requires inside { (q : List Factor) → Contains value.now q → Contains all.now q }
    requires few { length all.now ≤ 4096 }
    ensures { IfOk result (IsFiled P all.now
        (by_cell value.now (homotopy_in contraction.now place))) }
{
    filed(alloc, field, contraction.homotopy(place), value, all)
}

// The chains of a contraction, place by place.
fn filed_rows<const P: u16>(
    alloc: Global,
    field: Field<P>,
    contraction: &Contraction<P>,
    value: &Numbered,
    all: &Numbered,
) -> Result<Vec<Chain<P>>, NoMemory>
    requires contracted { IsContracted P value.now contraction.now }
    requires inside { (q : List Factor) → Contains value.now q → Contains all.now q }
    requires few { length all.now ≤ 4096 }
    ensures { IfOk result (λ rows. AreFiled P all.now (length value.now)
        (λ m. by_cell value.now (homotopy_in contraction.now m)) rows.items) }
{
    let mut rows = Vec::new(alloc);
    for place in 0..value.len() {
        rows.push(filed_row(alloc, field, place, contraction, value, all)?)?;
    }
    Ok(rows)
}

// The value of the map at the cell of the domain in this place, in order.
fn value_of(
    alloc: Global,
    cube_map: &CubeMap,
    domain: &CubeSet,
    range: &CubeSet,
    cells: &Numbered,
    place: u32,
) -> Result<Vec<Cell>, NoMemory>
    requires cells { cells.now ≡ cells_of domain.now.cells }
    requires inside { place < length cells.now }
    requires named { AreNamed cube_map.now.named domain.now.cells }
    requires into { GoesInto cube_map.now.named domain.now.cells range.now.cells }
    ensures { IfOk result (λ value. value.items
        ≡ value_in cube_map.now.named domain.now.cells range.now.cells place) }
{
    value_at(alloc, cube_map, domain, &cells.cell(place))
}

// A vertex and the chains of a contraction of a value.
fn contracted<const P: u16>(
    alloc: Global,
    field: Field<P>,
    value: &[Cell],
    all: &Numbered,
) -> Result<(u32, Vec<Chain<P>>), NoMemory>
    requires sorted { IsSortedCells value.now }
    requires closed { IsClosedList value.now }
    requires acyclic { IsAcyclic P value.now }
    requires inside { (q : List Factor) → Contains value.now q → Contains all.now q }
    requires few { length all.now ≤ 4096 }
    ensures { IfOk result (λ made.
        IsFiledContraction P all.now value.now made.0 made.1.items) }
{
    let contraction = contraction_of(alloc, field, value)?;
    let cells = Numbered::of_sorted(alloc, value)?;
    let vertex = filed_vertex(&contraction, &cells, all);
    let rows = filed_rows(alloc, field, &contraction, &cells, all)?;
    Ok((vertex, rows))
}

// The same of the value of the map at the cell of the domain in this place.
fn contracted_at<const P: u16>(
    alloc: Global,
    field: Field<P>,
    cube_map: &CubeMap,
    domain: &CubeSet,
    range: &CubeSet,
    cells: &Numbered,
    all: &Numbered,
    place: u32,
) -> Result<(u32, Vec<Chain<P>>), NoMemory>
    requires cells { cells.now ≡ cells_of domain.now.cells }
    requires all { all.now ≡ cells_of range.now.cells }
    requires inside { place < length cells.now }
    requires carrier { Carries P cube_map.now.named domain.now.cells range.now.cells }
    requires few { length all.now ≤ 4096 }
    ensures { IfOk result (λ made. IsFiledContraction P (cells_of range.now.cells)
        (value_in cube_map.now.named domain.now.cells range.now.cells place)
        made.0 made.1.items) }
{
    // Its clauses say that the cells stand in order.
    let _count = all.len();
    let value = value_of(alloc, cube_map, domain, range, cells, place)?;
    let made = contracted(alloc, field, &value, all)?;
    Ok(made)
}

/// For each cell of the domain a vertex of its value, and the chains of a contraction to it.
pub(crate) fn values_of<const P: u16>(
    alloc: Global,
    field: Field<P>,
    cube_map: &CubeMap,
    domain: &CubeSet,
    range: &CubeSet,
    cells: &Numbered,
    all: &Numbered,
) -> Result<(Vec<u32>, Vec<Vec<Chain<P>>>), NoMemory>
    requires cells { cells.now ≡ cells_of domain.now.cells }
    requires all { all.now ≡ cells_of range.now.cells }
    requires carrier { Carries P cube_map.now.named domain.now.cells range.now.cells }
    requires few { length all.now ≤ 4096 }
    ensures { IfOk result (λ made. AreFiledContractions P cube_map.now.named domain.now.cells
        range.now.cells (length cells.now) made.0.items (map (λ v. v.items) made.1.items)) }
{
    let mut vertices = Vec::new(alloc);
    let mut contractions = Vec::new(alloc);
    for place in 0..cells.len() {
        let (vertex, rows) = contracted_at(
            alloc, field, cube_map, domain, range, cells, all, place,
        )?;
        vertices.push(vertex)?;
        contractions.push(rows)?;
    }
    Ok((vertices, contractions))
}
