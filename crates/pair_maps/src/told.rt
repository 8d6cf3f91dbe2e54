//! Faults of maps as they are told.
ghost use Rattle.std.specs.Prelude.{◌≡◌, IfOk, OnOk};
ghost use Rattle.chains.specs.Terms.{IsNormal};
ghost use Rattle.cell_complex.specs.Numbering.{cell_terms};
ghost use Rattle.acyclic_values.specs.Deciding.{IsNormalHole};
ghost use Rattle.acyclic_values.specs.Faults.{IsHoleOf, IsWithin};
ghost use Rattle.pair_maps.specs.Telling.{hole_fault, IsTold, HasItsHole};

use acyclic_values::Hole;
use chains::Chain;
use elem_cubes::Cell;
use faults::{CellChain, Fault, Terms};
use map_checks::MapFault;
use std::alloc::{AllocError as NoMemory, Global};

// A fault of a map as it is told.
pub(crate) fn told<const P: u16>(alloc: Global, fault: &MapFault<P>) -> Result<Fault, NoMemory>
    requires { HasItsHole P fault.now }
    ensures { IfOk result (IsTold P fault.now) }
{
    match fault {
        MapFault::Undefined { cube } => Ok(Fault::Undefined { cube: *cube }),
        MapFault::LeavesRange { cube, value } => Ok(Fault::LeavesRange {
            cube: *cube,
            value: *value,
        }),
        MapFault::NotCarried { cube, value } => Ok(Fault::LeavesSubset {
            cube: *cube,
            value: *value,
        }),
        MapFault::NotAcyclic { cell, value, hole } => told_hole(alloc, *cell, value, hole),
        MapFault::NoMemory => Ok(Fault::OutOfMemory),
    }
}

// A hole of the value at a cell as it is told.
fn told_hole<const P: u16>(
    alloc: Global,
    cell: Cell,
    value: &[Cell],
    hole: &Hole<P>,
) -> Result<Fault, NoMemory>
    requires { IsHoleOf P value.now hole.now }
    ensures told { IfOk result (λ fault. fault ≡ hole_fault P cell value.now hole.now) }
    ensures normal { OnOk result (IsNormalHole P hole.now) }
{
    match hole {
        Hole::Empty => Ok(Fault::EmptyValue { cell }),
        Hole::Class {
            degree,
            cycle,
            cocycle,
        } => {
            let cycle = chain_of_cells(alloc, value, cycle)?;
            let cocycle = chain_of_cells(alloc, value, cocycle)?;
            Ok(Fault::NotAcyclic {
                cell,
                degree: *degree,
                cycle,
                cocycle,
            })
        }
    }
}

// A chain of places in a list of cells, with the cells in place of these.
fn chain_of_cells<const P: u16>(
    alloc: Global,
    cells: &[Cell],
    chain: &Chain<P>,
) -> Result<CellChain, NoMemory>
    requires { IsWithin P cells.now chain.now }
    ensures named { IfOk result (λ named. named ≡ cell_terms cells.now chain.now) }
    ensures normal { IsNormal P chain.now }
{
    let mut named = Vec::new(alloc);
    for i in 0..chain.len() {
        let (place, coefficient) = chain.term(i);
        named.push((cells[place as usize], coefficient))?;
    }
    Ok(Terms::of(named))
}
