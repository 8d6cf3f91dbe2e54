//! The lines of the values and images of all cells.
ghost use Rattle.std.specs.Prelude.{◌≡◌, ◌+◌, ◌-◌, ◌<◌, ◌≤◌, ◌^◌, length, IfOk, IfErr};
ghost use Rattle.std.specs.List.{Contains};
ghost use Rattle.elem_cubes.specs.Laws.{cell_at};
ghost use Rattle.cell_complex.specs.Numbering.{number_of};
ghost use Rattle.witness_laws.specs.Inputs.{Given};
ghost use Rattle.witness_laws.specs.Parts.{value_at};
ghost use Rattle.witness_laws.specs.Tables.{Tables};
ghost use Rattle.witness_values.specs.Cells.{AreSidesOf, HasWitness, CellsPassed, IsCellFaultOf, cell_lines, chains_at, all_cell_lines, cell_line_count};

use crate::fillings::test_fillings;
use crate::images::image_fault;
use cell_complex::{Numbered, complex_of};
use chains::{Chain, Complex};
use cube_maps::CubeMap;
use cube_sets::CubeSet;
use field_mod::Field;
use map_checks::value_at;
use read_parts::ReadMap;
use std::alloc::{AllocError, Global};
use witness_sections::{cell_of, read_chains};
use witness_types::WitnessFault;

/// The cells of the domain and of the range of a map with their complexes, and the images of the
/// cells by the numbers of the cells of the range from 0 on.
#[derive(Drop)]
pub struct MapSides<const P: u16> {
    /// The cells of the domain.
    pub domain: Numbered,
    /// And those of the range.
    pub range: Numbered,
    /// The complex of the domain.
    pub domain_complex: Complex<P>,
    /// And that of the range.
    pub range_complex: Complex<P>,
    /// The image of each cell of the domain.
    pub images: Vec<Chain<P>>,
}

// The value of the map at a cell of the domain.
fn value_of<const P: u16>(
    alloc: Global,
    map: &CubeMap,
    set: &CubeSet,
    sides: &MapSides<P>,
    part: &ReadMap<P>,
    cell: u32,
) -> Result<Numbered, AllocError>
    requires cell { cell < length sides.now.domain }
    requires witness { HasWitness sides.now map.now.named set.now.cells part.now }
    ensures { IfOk result (λ value. (G : Given) (W : Tables)
        → AreSidesOf sides.now map.now.named set.now.cells part.now G W
        → value ≡ value_at G cell) }
{
    let _part = part.vertices.len();
    let cells = value_at(alloc, map, set, &sides.domain.cell(cell))?;
    let value = Numbered::of_sorted(alloc, &cells)?;
    Ok(value)
}

// The place in a value of the cell of a number in the file, 0 where it is not there.
fn vertex_place(range: &Numbered, value: &Numbered, number: u32) -> u32
    requires positive { 0 < number }
    requires inside { number ≤ length range.now }
    ensures { Contains value.now (cell_at range.now (number - 1))
        → result ≡ number_of value.now (cell_at range.now (number - 1)) }
{
    match value.number(&cell_of(range, number)) {
        Some(place) => place,
        None => 0,
    }
}

// The lines of the value and of the image of a cell, of which the first has this number: the
// number of the line behind them, or the first line and law that fail.
fn test_cell<const P: u16>(
    alloc: Global,
    field: Field<P>,
    map: &CubeMap,
    set: &CubeSet,
    sides: &MapSides<P>,
    part: &ReadMap<P>,
    cell: u32,
    line: u64,
) -> Result<u64, WitnessFault>
    requires cell { cell < length sides.now.domain }
    requires witness { HasWitness sides.now map.now.named set.now.cells part.now }
    requires room { line + chains_at part.now cell + 2 < 2 ^ 63 }
    ensures ok { IfOk result (CellsPassed sides.now map.now.named set.now.cells part.now
        (cell_lines cell) line) }
    ensures next { IfOk result (λ next. next ≡ line + chains_at part.now cell + 2) }
    ensures err { IfErr result (IsCellFaultOf sides.now map.now.named set.now.cells part.now
        (cell_lines cell) line) }
{
    let value = value_of(alloc, map, set, sides, part, cell)?;
    let complex = complex_of(alloc, field, &value)?;
    let vertex = vertex_place(&sides.range, &value, part.vertices[cell as usize]);
    let chains = &part.contractions[cell as usize];
    let fillings = read_chains(alloc, field, &sides.range, &value, chains)?;
    let next = test_fillings(alloc, field, &complex, &fillings, vertex, line + 1)?;
    let image = &part.images[cell as usize];
    let fault = image_fault(
        alloc,
        field,
        &sides.domain_complex,
        &sides.range_complex,
        &sides.range,
        &value,
        image,
        &sides.images,
        cell,
    )?;
    match fault {
        Some(law) => Err(WitnessFault::At { line: next, law }),
        None => Ok(next + 1),
    }
}

/// The lines of the values and of the images of all cells, of which the first has this number: the
/// number of the line behind them, or the first line and law that fail.
pub fn test_cells<const P: u16>(
    alloc: Global,
    field: Field<P>,
    map: &CubeMap,
    set: &CubeSet,
    sides: &MapSides<P>,
    part: &ReadMap<P>,
    line: u64,
) -> Result<u64, WitnessFault>
    requires witness { HasWitness sides.now map.now.named set.now.cells part.now }
    requires room { line + cell_line_count part.now (length sides.now.domain) < 2 ^ 63 }
    ensures ok { IfOk result (CellsPassed sides.now map.now.named set.now.cells part.now
        all_cell_lines line) }
    ensures next { IfOk result (λ next.
        next ≡ line + cell_line_count part.now (length sides.now.domain)) }
    ensures err { IfErr result (IsCellFaultOf sides.now map.now.named set.now.cells part.now
        all_cell_lines line) }
{
    let mut next = line;
    for cell in 0..sides.domain.len() {
        next = test_cell(alloc, field, map, set, sides, part, cell, next)?;
    }
    Ok(next)
}
