//! Whether a map goes from one pair of sets to another.
ghost use Rattle.std.specs.Prelude.{◌≡◌, ◌||◌, false, IfErr, OnOk, IfSome, IfNone};
ghost use Rattle.std.specs.List.{Contains};
ghost use Rattle.std.specs.List.Sorted.{IsStrictlySortedBy};
ghost use Rattle.elem_cubes.specs.Order.{cell_cmp};
ghost use Rattle.cube_sets.specs.Sets.{holds};
ghost use Rattle.cube_maps.specs.CubeMaps.{names, value_of};
ghost use Rattle.acyclic_values.specs.CarriedMaps.{GoesInto};
ghost use Rattle.map_checks.specs.Firsts.{IsFirst, lower_one};
ghost use Rattle.map_checks.specs.Faults.{IsMapFault, IsOfSets, HasNoSetFault, IsFirstOutside, Leaves, together};

use crate::map_fault::MapFault;
use cube_maps::CubeMap;
use cube_sets::CubeSet;
use elem_cubes::Cell;
use std::cmp::Ordering;

// The lower one of two cells, or the one that there is.
fn lower(left: Option<Cell>, right: Option<Cell>) -> Option<Cell>
    ensures { result ≡ lower_one left right }
{
    let Some(cell) = left else {
        return right;
    };
    let Some(other) = right else {
        return left;
    };
    match cell.cmp(&other) {
        Ordering::Greater => right,
        _ => left,
    }
}

// The first of some cubes in order that the map does not name.
fn first_unnamed(map: &CubeMap, cubes: &[Cell]) -> Option<Cell>
    requires { IsStrictlySortedBy cell_cmp cubes.now }
    ensures { IsFirst cubes.now (λ q. names map.now.named q ≡ false) result }
{
    for cube in cubes {
        let Some(_) = map.value(cube) else {
            return Some(*cube);
        };
    }
    None
}

// Whether a cube is in one of two sets.
fn is_in_either(cube: &Cell, y: &CubeSet, b: &CubeSet) -> bool
    ensures { result ≡ (holds y.now cube.now || holds b.now cube.now) }
{
    y.holds(cube) || b.holds(cube)
}

// The first value of a cube that is in neither set.
fn value_outside(map: &CubeMap, cube: &Cell, y: &CubeSet, b: &CubeSet) -> Option<Cell>
    ensures { IsFirst (value_of map.now.named cube.now)
        (λ v. Contains (together y.now.cells b.now.cells) v → ⊥) result }
{
    // Its clauses say that values stand in order.
    let _count = map.len();
    let Some(values) = map.value(cube) else {
        return None;
    };
    for value in values {
        if !is_in_either(value, y, b) {
            return Some(*value);
        }
    }
    None
}

// The first of some cubes in order that has a value in neither set.
fn first_leaving(map: &CubeMap, cubes: &[Cell], y: &CubeSet, b: &CubeSet) -> Option<Cell>
    requires { IsStrictlySortedBy cell_cmp cubes.now }
    ensures { IsFirst cubes.now (Leaves map.now.named (together y.now.cells b.now.cells)) result }
{
    for cube in cubes {
        if let Some(_) = value_outside(map, cube, y, b) {
            return Some(*cube);
        }
    }
    None
}

// The first member of x or a that has a value in neither y nor b, and its first such value.
fn first_outside(
    map: &CubeMap,
    x: &CubeSet,
    a: &CubeSet,
    y: &CubeSet,
    b: &CubeSet,
) -> Option<(Cell, Cell)>
    ensures some { IfSome result (λ r. IsFirstOutside map.now.named
        (together x.now.cells a.now.cells) (together y.now.cells b.now.cells) r.0 r.1) }
    ensures none { IfNone result (GoesInto map.now.named
        (together x.now.cells a.now.cells) (together y.now.cells b.now.cells)) }
{
    let left = first_leaving(map, x.cells(), y, b);
    let right = first_leaving(map, a.cells(), y, b);
    let Some(cube) = lower(left, right) else {
        return None;
    };
    match value_outside(map, &cube, y, b) {
        Some(value) => Some((cube, value)),
        None => None,
    }
}

/// Whether the map names all cubes of the domain, which is x with a, goes into the range, which is
/// y with b, and sends the cubes of a into b; else the first reason why not. It takes no memory.
pub fn check_sets<const P: u16>(
    map: &CubeMap,
    x: &CubeSet,
    a: &CubeSet,
    y: &CubeSet,
    b: &CubeSet,
) -> Result<(), MapFault<P>>
    ensures ok { OnOk result
        (HasNoSetFault map.now.named x.now.cells a.now.cells y.now.cells b.now.cells) }
    ensures err { IfErr result
        (IsMapFault P map.now.named x.now.cells a.now.cells y.now.cells b.now.cells) }
    ensures sets { IfErr result (IsOfSets P) }
{
    let left = first_unnamed(map, x.cells());
    let right = first_unnamed(map, a.cells());
    if let Some(cube) = lower(left, right) {
        return Err(MapFault::Undefined { cube });
    }
    if let Some(outside) = first_outside(map, x, a, y, b) {
        return Err(MapFault::LeavesRange {
            cube: outside.0,
            value: outside.1,
        });
    }
    // Its clauses say that the members stand in order.
    let _subset = a.len();
    let _range_subset = b.len();
    if let Some(outside) = first_outside(map, a, a, b, b) {
        return Err(MapFault::NotCarried {
            cube: outside.0,
            value: outside.1,
        });
    }
    Ok(())
}
