//! The value of a map at a cell.
ghost use Rattle.std.specs.Prelude.{◌≡◌, ◌≤◌, true, length, IfOk, IfSome, IsTrue};
ghost use Rattle.cube_sets.specs.Closures.{is_cell_of, cells_of};
ghost use Rattle.cube_maps.specs.CubeMaps.{names, value_of};
ghost use Rattle.acyclic_values.specs.Values.{IsValueAt};
ghost use Rattle.map_checks.specs.Faults.{AreNamed};
ghost use Rattle.map_checks.specs.Narrowed.{narrowed_by};

use cube_maps::CubeMap;
use cube_sets::CubeSet;
use elem_cubes::Cell;
use std::alloc::{AllocError as NoMemory, Global};

// More cells than any value has: it has at most 2^20 cubes.
const MOST: u32 = 0x7fff_ffff;

// The cells of the value of a cube.
fn cells_of_value(alloc: Global, map: &CubeMap, cube: &Cell) -> Result<CubeSet, NoMemory>
    requires { names map.now.named cube.now ≡ true }
    ensures cells { IfOk result (λ s. s.cells ≡ cells_of (value_of map.now.named cube.now)) }
    ensures dimension { IfOk result (λ s. s.dimension ≡ map.now.dimension) }
    ensures few { IfOk result (λ s. length s.cells ≤ MOST) }
{
    let dimension = map.dimension();
    let Some(value) = map.value(cube) else {
        unreachable!();
    };
    let values = Vec::from_slice(alloc, value)?;
    let cubes = CubeSet::of_cells(dimension, values)?;
    // Its clauses say that the members stand in order.
    let _count = cubes.len();
    match cubes.closure_within(alloc, MOST) {
        Ok(cells) => Ok(cells),
        Err(_) => Err(NoMemory),
    }
}

// The cells of a set that the set so far has, or all where there was none.
fn narrowed(alloc: Global, so_far: Option<CubeSet>, cells: CubeSet) -> Result<CubeSet, NoMemory>
    requires dimension { IfSome so_far (λ s. s.dimension ≡ cells.dimension) }
    requires few { IfSome so_far (λ s. length s.cells ≤ MOST) }
    requires few_cells { length cells.cells ≤ MOST }
    ensures cells { IfOk result (λ s. s.cells ≡ narrowed_by so_far cells.cells) }
    ensures dimension { IfOk result (λ s. s.dimension ≡ cells.dimension) }
{
    let Some(set) = so_far else {
        return Ok(cells);
    };
    let both = set.intersection(alloc, &cells)?;
    Ok(both)
}

// The value of the map at a cell of the domain, as a set.
pub(crate) fn value_set(
    alloc: Global,
    map: &CubeMap,
    domain: &CubeSet,
    cell: &Cell,
) -> Result<CubeSet, NoMemory>
    requires cell { IsTrue (is_cell_of domain.now.cells cell.now) }
    requires named { AreNamed map.now.named domain.now.cells }
    ensures { IfOk result
        (λ value. IsValueAt map.now.named domain.now.cells cell.now value.cells) }
{
    // Their clauses say what a map and a set are.
    let _cubes = map.len();
    let _members = domain.len();
    let mut so_far = None;
    for cube in cell.covers() {
        if domain.holds(&cube) {
            let cells = cells_of_value(alloc, map, &cube)?;
            so_far = Some(narrowed(alloc, so_far, cells)?);
        }
    }
    let Some(value) = so_far else {
        unreachable!();
    };
    // Its clauses say that the cells stand in order.
    let _count = value.len();
    Ok(value)
}

/// The value of the map at a cell of the domain, in order: the cells of the values of all cubes of
/// the domain that have it as a face. The map names each cube of the domain.
pub fn value_at(
    alloc: Global,
    map: &CubeMap,
    domain: &CubeSet,
    cell: &Cell,
) -> Result<Vec<Cell>, NoMemory>
    requires cell { IsTrue (is_cell_of domain.now.cells cell.now) }
    requires named { AreNamed map.now.named domain.now.cells }
    ensures { IfOk result
        (λ value. IsValueAt map.now.named domain.now.cells cell.now value.items) }
{
    let set = value_set(alloc, map, domain, cell)?;
    let value = Vec::from_slice(alloc, set.cells())?;
    Ok(value)
}
