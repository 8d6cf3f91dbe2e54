//! How large the values of a map are.
ghost use Rattle.std.specs.Prelude.{◌≡◌, ◌≤◌, ◌<◌, ◌⊎◌, length, IfOk, IfErr, OnOk, IsTrue};
ghost use Rattle.cube_sets.specs.Closures.{cells_of, is_cell_of};
ghost use Rattle.map_checks.specs.Faults.{HasNoSetFault};
ghost use Rattle.pair_maps.specs.Inputs.{IsFitting, domain_of};
ghost use Rattle.witness_limits.specs.Limits.{most_carried, carrier_size, square, HasFew};
ghost use Rattle.witness_limits.specs.Maps.{given_of_map, value_of};

use cube_sets::{CubeSet, SetFault};
use elem_cubes::Cell;
use faults::{Fault, LimitName};
use map_checks::value_at;
use pair_maps::PairMap;
use std::alloc::{AllocError as NoMemory, Global};

// The most that the squares of the lengths of all values may add up to.
const CARRIER_SIZE: u64 = 16_777_216;

// The number of cells of the value at a cell of the domain, squared.
fn square_at(alloc: Global, map: &PairMap, domain: &CubeSet, cell: &Cell) -> Result<u64, NoMemory>
    requires domain { domain.now.cells ≡ domain_of map.now }
    requires few { HasFew (given_of_map map.now) }
    requires sound { HasNoSetFault map.now.map.named map.now.x.cells map.now.a.cells
        map.now.y.cells map.now.b.cells }
    requires cell { IsTrue (is_cell_of domain.now.cells cell.now) }
    ensures square { IfOk result (λ n. n ≡ square (length (value_of map.now cell.now))) }
    ensures small { IfOk result (λ n. n ≤ most_carried) }
{
    let value = value_at(alloc, &map.map, domain, cell)?;
    let count = value.len() as u64;
    Ok(count * count)
}

// The sum of these squares over the cells of the domain.
fn squares(alloc: Global, map: &PairMap, domain: &CubeSet, cells: &CubeSet) -> Result<u64, NoMemory>
    requires domain { domain.now.cells ≡ domain_of map.now }
    requires cells { cells.now.cells ≡ cells_of domain.now.cells }
    requires few { HasFew (given_of_map map.now) }
    requires sound { HasNoSetFault map.now.map.named map.now.x.cells map.now.a.cells
        map.now.y.cells map.now.b.cells }
    ensures { IfOk result (λ n. n ≡ carrier_size (given_of_map map.now)) }
{
    let cells = cells.cells();
    let mut size: u64 = 0;
    for i in 0..cells.len() {
        size += square_at(alloc, map, domain, &cells[i])?;
    }
    Ok(size)
}

// The sum of the squares of the numbers of cells of all values.
fn carrier_size(alloc: Global, map: &PairMap) -> Result<u64, NoMemory>
    requires fits { IsFitting map.now }
    requires few { HasFew (given_of_map map.now) }
    requires sound { HasNoSetFault map.now.map.named map.now.x.cells map.now.a.cells
        map.now.y.cells map.now.b.cells }
    ensures { IfOk result (λ n. n ≡ carrier_size (given_of_map map.now)) }
{
    let domain = map.x.union(alloc, &map.a)?;
    match domain.closure_within(alloc, 4096) {
        Ok(cells) => squares(alloc, map, &domain, &cells),
        Err(SetFault::NoMemory) => Err(NoMemory),
        Err(SetFault::TooMany) => unreachable!(),
        Err(SetFault::Coordinates) => unreachable!(),
    }
}

/// Nothing where the values of a map are not too large, else the limit.
pub fn test_size(alloc: Global, map: &PairMap) -> Result<(), Fault>
    requires fits { IsFitting map.now }
    requires few { HasFew (given_of_map map.now) }
    requires sound { HasNoSetFault map.now.map.named map.now.x.cells map.now.a.cells
        map.now.y.cells map.now.b.cells }
    ensures size { OnOk result (carrier_size (given_of_map map.now) ≤ most_carried) }
    ensures fault { IfErr result (λ fault.
        ((most_carried < carrier_size (given_of_map map.now))
        × (fault ≡ Fault.Limit LimitName.CarrierSize most_carried))
        ⊎ (fault ≡ Fault.OutOfMemory)) }
{
    let size = carrier_size(alloc, map)?;
    if size > CARRIER_SIZE {
        return Err(Fault::Limit {
            count: LimitName::CarrierSize,
            number: CARRIER_SIZE,
        });
    }
    Ok(())
}
