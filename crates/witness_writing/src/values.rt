//! The lines of the values of a map and of the images of its cells.
ghost use Rattle.std.specs.Prelude.{◌≡◌, ◌++◌, ◌≤◌, ◌<◌, List, length, OnOk, IfOk};
ghost use Rattle.std.specs.List.{Contains};
ghost use Rattle.elem_cubes.specs.Cells.{Factor};
ghost use Rattle.cube_sets.specs.Closures.{cells_of};
ghost use Rattle.acyclic_values.specs.CarriedMaps.{GoesInto};
ghost use Rattle.map_checks.specs.Faults.{AreNamed};
ghost use Rattle.witness_writing.specs.Runs.{fillings_text, value_text, cell_text, values_text};
ghost use Rattle.witness_writing.specs.Runs.{value_in, IsOfValues};

use crate::cells::{faces, number_in};
use cell_complex::Numbered;
use chains::Chain;
use cube_maps::CubeMap;
use cube_sets::CubeSet;
use elem_cubes::Cell;
use map_checks::value_at;
use std::alloc::{AllocError as NoMemory, Global};
use witness_lines::{put_chain_line, put_numbers_line};
use witness_types::MapPart;

// Adds the lines of the chains of a value.
fn put_fillings<const P: u16>(
    to: &mut Vec<u8>,
    all: &Numbered,
    value: &[Cell],
    number: u32,
    chains: &[Chain<P>],
) -> Result<(), NoMemory>
    requires count { length chains.now ≡ length value.now }
    requires inside { (q : List Factor) → Contains value.now q → Contains all.now q }
    requires few { length all.now ≤ 4096 }
    ensures { OnOk result (to.new.items ≡ to.old.items
        ++ fillings_text all.now value.now number chains.now) }
{
    for place in 0..chains.len() {
        let numbers = [number, number_in(all, &value[place])];
        put_chain_line(to, b"g", &numbers, &chains[place])?;
    }
    Ok(())
}

// Adds the lines of the cell of the domain with this number in the file.
fn put_value<const P: u16>(
    to: &mut Vec<u8>,
    all: &Numbered,
    value: &[Cell],
    number: u32,
    vertex: u32,
    chains: &[Chain<P>],
    image: &Chain<P>,
) -> Result<(), NoMemory>
    requires count { length chains.now ≡ length value.now }
    requires inside { (q : List Factor) → Contains value.now q → Contains all.now q }
    requires few { length all.now ≤ 4096 }
    ensures { OnOk result (to.new.items ≡ to.old.items
        ++ value_text all.now value.now number vertex chains.now image.now) }
{
    put_numbers_line(to, b"v", &[number, vertex])?;
    put_fillings(to, all, value, number, chains)?;
    put_chain_line(to, b"f", &[number], image)?;
    Ok(())
}

// The value of the map at the cell of the domain in this place, in order.
#[tactic(auto, using(crate::proofs::Filling::value_is, crate::proofs::Filling::cell_listed))]
fn value_of(
    alloc: Global,
    map: &CubeMap,
    domain: &CubeSet,
    range: &CubeSet,
    cells: &Numbered,
    place: u32,
) -> Result<Vec<Cell>, NoMemory>
    requires cells { cells.now ≡ cells_of domain.now.cells }
    requires inside { place < length cells.now }
    requires named { AreNamed map.now.named domain.now.cells }
    requires into { GoesInto map.now.named domain.now.cells range.now.cells }
    ensures { IfOk result (λ value. value.items
        ≡ value_in map.now.named domain.now.cells range.now.cells place) }
{
    value_at(alloc, map, domain, &cells.cell(place))
}

/// Adds the lines of the values and images of all cells of the domain.
pub(crate) fn put_values<const P: u16>(
    alloc: Global,
    to: &mut Vec<u8>,
    map: &CubeMap,
    domain: &CubeSet,
    range: &CubeSet,
    part: &MapPart<P>,
) -> Result<(), NoMemory>
    requires named { AreNamed map.now.named domain.now.cells }
    requires into { GoesInto map.now.named domain.now.cells range.now.cells }
    requires few { length (cells_of domain.now.cells) ≤ 4096 }
    requires few_range { length (cells_of range.now.cells) ≤ 4096 }
    requires part { IsOfValues map.now.named domain.now.cells range.now.cells part.now }
    ensures { OnOk result (to.new.items ≡ to.old.items
        ++ values_text map.now.named domain.now.cells range.now.cells part.now) }
{
    let cells = faces(alloc, domain)?;
    let all = faces(alloc, range)?;
    for place in 0..cells.len() {
        let value = value_of(alloc, map, domain, range, &cells, place)?;
        let vertex = part.vertices[place as usize];
        let chains = &part.contractions[place as usize];
        let image = &part.images[place as usize];
        put_value(to, &all, &value, place + 1, vertex, chains, image)?;
    }
    Ok(())
}
