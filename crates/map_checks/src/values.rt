//! Whether the values of a map at cells are acyclic.
ghost use Rattle.std.specs.Prelude.{◌≡◌, List, true, OnOk, IfErr, IsTrue};
ghost use Rattle.elem_cubes.specs.Cells.{Factor};
ghost use Rattle.cube_sets.specs.Closures.{is_cell_of, cells_of};
ghost use Rattle.map_checks.specs.Faults.{AreNamed, IsAcyclicAt, IsFaultAt, IsFirstHollow};

use crate::acyclic_shapes::AcyclicShapes;
use crate::map_fault::MapFault;
use crate::shape::shape_at;
use crate::value::value_set;
use acyclic_values::{ValueFault, test_value};
use cell_complex::Numbered;
use cube_maps::CubeMap;
use cube_sets::CubeSet;
use elem_cubes::Cell;
use field_mod::Field;
use std::alloc::Global;

// Whether the value at a cell of the domain is acyclic, else a hole of it.
fn test_at<const P: u16>(
    alloc: Global,
    field: Field<P>,
    map: &CubeMap,
    domain: &CubeSet,
    cell: &Cell,
) -> Result<(), MapFault<P>>
    requires cell { IsTrue (is_cell_of domain.now.cells cell.now) }
    requires named { AreNamed map.now.named domain.now.cells }
    ensures ok { OnOk result (IsAcyclicAt P map.now.named domain.now.cells cell.now) }
    ensures err { IfErr result (IsFaultAt P map.now.named domain.now.cells cell.now) }
{
    let set = value_set(alloc, map, domain, cell)?;
    match test_value(alloc, field, set.cells()) {
        Ok(()) => Ok(()),
        Err(ValueFault::NoMemory) => Err(MapFault::NoMemory),
        Err(ValueFault::Hole(hole)) => {
            let value = Vec::from_slice(alloc, set.cells())?;
            Err(MapFault::NotAcyclic {
                cell: *cell,
                value,
                hole,
            })
        }
    }
}

// The same; a shape that is known is not tested again.
fn check_value<const P: u16>(
    alloc: Global,
    field: Field<P>,
    map: &CubeMap,
    domain: &CubeSet,
    cell: &Cell,
    known: &mut AcyclicShapes<P>,
) -> Result<(), MapFault<P>>
    requires cell { IsTrue (is_cell_of domain.now.cells cell.now) }
    requires named { AreNamed map.now.named domain.now.cells }
    ensures ok { OnOk result (IsAcyclicAt P map.now.named domain.now.cells cell.now) }
    ensures err { IfErr result (IsFaultAt P map.now.named domain.now.cells cell.now) }
{
    let shape = shape_at(alloc, map, domain, cell)?;
    if known.has(&shape) {
        return Ok(());
    }
    test_at(alloc, field, map, domain, cell)?;
    known.keep(shape);
    Ok(())
}

/// Whether the values at all cells of the domain are acyclic, else the first that is not. What is
/// told of a cell is a function of the cell alone: what is known of values before has no say in it.
pub(crate) fn check_cells<const P: u16>(
    alloc: Global,
    field: Field<P>,
    map: &CubeMap,
    domain: &CubeSet,
    cells: &Numbered,
) -> Result<(), MapFault<P>>
    requires cells { cells.now ≡ cells_of domain.now.cells }
    requires named { AreNamed map.now.named domain.now.cells }
    ensures ok { OnOk result ((s : List Factor) → is_cell_of domain.now.cells s ≡ true
        → IsAcyclicAt P map.now.named domain.now.cells s) }
    ensures err { IfErr result (IsFirstHollow P map.now.named domain.now.cells) }
{
    let mut known = AcyclicShapes::none(alloc)?;
    let mut near = 0;
    for number in 0..cells.len() {
        let cell = cells.cell_near(number, &mut near);
        if let Err(fault) = check_value(alloc, field, map, domain, &cell, &mut known) {
            return Err(fault);
        }
    }
    Ok(())
}
