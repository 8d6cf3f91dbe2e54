//! Maps whose values are acyclic.
ghost use Rattle.std.specs.Prelude.{◌≡◌, ◌++◌, ◌≤◌, length, max, IfOk, IfErr, OnOk, IsTrue};
ghost use Rattle.cube_sets.specs.Closures.{is_cell_of, cells_of};
ghost use Rattle.cell_complex.specs.CellCount.{cell_count};
ghost use Rattle.acyclic_values.specs.Values.{IsValueAt};
ghost use Rattle.map_checks.specs.Faults.{IsMapFault, HasNoSetFault, together};
ghost use Rattle.map_checks.specs.Carriers.{AreOfOneDimension, IsCarrier};

use crate::map_fault::MapFault;
use crate::sets::check_sets;
use crate::value::value_at;
use crate::values::check_cells;
use cell_complex::{CELLS, Numbered};
use cube_maps::CubeMap;
use cube_sets::{CubeSet, SetFault};
use elem_cubes::Cell;
use field_mod::Field;
use std::alloc::{AllocError as NoMemory, Global};
use std::marker::Model;

/// A map with its domain and its range, whose values on the domain are in the range and acyclic at
/// all cells modulo `P`. It keeps them as they were, and the cells of the domain and of the range.
#[derive(Drop)]
pub struct Carrier<const P: u16> {
    map: CubeMap,
    domain: CubeSet,
    range: CubeSet,
    domain_cells: Numbered,
    range_cells: Numbered,
    dimension: u8,
}

impl<const P: u16> Model for Carrier<P> {
    ghost use Rattle.std.specs.Prelude.{◌≡◌};
    ghost use Rattle.cube_sets.specs.Closures.{cells_of};
    ghost use Rattle.map_checks.specs.Carriers.{Carrying, IsCarrier};

    ghost Value = { Carrying };

    ghost view = { λ c. record {
      dimension = c.dimension;
      map = c.map.named;
      domain = c.domain.cells;
      range = c.range.cells;
    } };

    ghost invariant = { λ c. IsCarrier P (record {
      dimension = c.dimension;
      map = c.map.named;
      domain = c.domain.cells;
      range = c.range.cells;
    }) × (c.domain_cells ≡ cells_of c.domain.cells) × (c.range_cells ≡ cells_of c.range.cells) };
}

impl<const P: u16> Carrier<P> {
    /// The cells of the domain.
    pub fn domain_cells(&self) -> &Numbered
        ensures { result.now ≡ cells_of self.now.domain }
    {
        &self.domain_cells
    }

    /// The cells of the range.
    pub fn range_cells(&self) -> &Numbered
        ensures { result.now ≡ cells_of self.now.range }
    {
        &self.range_cells
    }

    /// The known dimension of the map, of its domain and of its range, or 0 where none is known.
    /// Its clauses hand out what a carrier is.
    pub fn dimension(&self) -> u8
        ensures dimension { result ≡ self.now.dimension }
        ensures carrier { IsCarrier P self.now }
    {
        self.dimension
    }

    /// The value of the map at a cell of the domain, in order.
    pub fn value(&self, alloc: Global, cell: &Cell) -> Result<Vec<Cell>, NoMemory>
        requires { IsTrue (is_cell_of self.now.domain cell.now) }
        ensures { IfOk result
            (λ value. IsValueAt self.now.map self.now.domain cell.now value.items) }
    {
        value_at(alloc, &self.map, &self.domain, cell)
    }
}

// All cells of a set that has no more than `CELLS`.
fn all_cells(alloc: Global, set: &CubeSet) -> Result<Numbered, NoMemory>
    requires { length (cells_of set.now.cells) ≤ CELLS }
    ensures { IfOk result (λ all. all ≡ cells_of set.now.cells) }
{
    match set.closure_within(alloc, CELLS as u32) {
        Ok(cells) => Numbered::of_sorted(alloc, cells.cells()),
        Err(SetFault::NoMemory) => Err(NoMemory),
        Err(SetFault::TooMany) => unreachable!(),
        Err(SetFault::Coordinates) => unreachable!(),
    }
}

/// The carrier of a map from the pair of x and a to that of y and b, whose values at all cells of
/// the domain are acyclic; else the first reason why it has none.
pub fn check_values<const P: u16>(
    alloc: Global,
    field: Field<P>,
    map: &CubeMap,
    x: &CubeSet,
    a: &CubeSet,
    y: &CubeSet,
    b: &CubeSet,
) -> Result<Carrier<P>, MapFault<P>>
    requires dimensions { AreOfOneDimension map.now x.now a.now y.now b.now }
    requires domain { cell_count (x.now.cells ++ a.now.cells) ≤ CELLS }
    requires range { cell_count (y.now.cells ++ b.now.cells) ≤ CELLS }
    ensures map { IfOk result (λ c. c.map ≡ map.now.named) }
    ensures domain { IfOk result (λ c. c.domain ≡ together x.now.cells a.now.cells) }
    ensures range { IfOk result (λ c. c.range ≡ together y.now.cells b.now.cells) }
    ensures dimension { IfOk result (λ c. c.dimension ≡ max map.now.dimension
        (max (max x.now.dimension a.now.dimension) (max y.now.dimension b.now.dimension))) }
    ensures carrier { IfOk result (IsCarrier P) }
    ensures sets { OnOk result
        (HasNoSetFault map.now.named x.now.cells a.now.cells y.now.cells b.now.cells) }
    ensures err { IfErr result
        (IsMapFault P map.now.named x.now.cells a.now.cells y.now.cells b.now.cells) }
{
    // Their clauses say what sets are.
    let _x_members = x.len();
    let _a_members = a.len();
    let _y_members = y.len();
    let _b_members = b.len();
    if let Err(fault) = check_sets(map, x, a, y, b) {
        return Err(fault);
    }
    let domain = x.union(alloc, a)?;
    let range = y.union(alloc, b)?;
    let domain_cells = all_cells(alloc, &domain)?;
    let range_cells = all_cells(alloc, &range)?;
    if let Err(fault) = check_cells(alloc, field, map, &domain, &domain_cells) {
        return Err(fault);
    }
    let dimension = map
        .dimension()
        .max(domain.dimension().max(range.dimension()));
    let map = map.copy(alloc)?;
    Ok(Carrier {
        map,
        domain,
        range,
        domain_cells,
        range_cells,
        dimension,
    })
}
