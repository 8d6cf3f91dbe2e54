//! Maps of the line and of the plane: their values at cells, and how many cells have acyclic ones.

use crate::texts::{faces_of, map_of, set_of};
use cell_complex::relative;
use cube_maps::CubeMap;
use cube_sets::CubeSet;
use elem_cubes::Cell;
use field_mod::Field;
use map_checks::{Carrier, MapFault, check_sets, check_values, value_at};
use std::alloc::Global;

// The texts of a set with a subset, and of another set with a subset.
type Pairs<'a> = (&'a str, &'a str, &'a str, &'a str);

// What the text of a map of the line doubles: each segment goes to the two segments of twice its
// ends.
const DOUBLING: &str = "(-2) -> {(-4) (-3)} (-1) -> {(-2) (-1)} (0) -> {(0) (1)} (1) -> {(2) (3)}";

// What check_values tells of a map and of sets, where these are of full cubes and all are of one
// dimension.
fn check(
    alloc: Global,
    map: &CubeMap,
    x: &CubeSet,
    a: &CubeSet,
    y: &CubeSet,
    b: &CubeSet,
) -> Option<Result<Carrier<3>, MapFault<3>>> {
    if !x.is_full() {
        return None;
    }
    if !a.is_full() {
        return None;
    }
    if !y.is_full() {
        return None;
    }
    if !b.is_full() {
        return None;
    }
    let dimension = x.dimension();
    if map.dimension() != dimension {
        return None;
    }
    if a.dimension() != dimension {
        return None;
    }
    if y.dimension() != dimension {
        return None;
    }
    if b.dimension() != dimension {
        return None;
    }
    let Some(field) = Field::<3>::get() else {
        return None;
    };
    // Their clauses say that the domain and the range have few cells.
    let Ok(_domain) = relative(alloc, x, a) else {
        return None;
    };
    let Ok(_range) = relative(alloc, y, b) else {
        return None;
    };
    Some(check_values(alloc, field, map, x, a, y, b))
}

// The same, by their texts.
fn told_of_values(
    alloc: Global,
    map: &str,
    sets: Pairs,
) -> Option<Result<Carrier<3>, MapFault<3>>> {
    let Some(map) = map_of(alloc, map) else {
        return None;
    };
    let (Some(x), Some(a)) = (set_of(alloc, sets.0), set_of(alloc, sets.1)) else {
        return None;
    };
    let (Some(y), Some(b)) = (set_of(alloc, sets.2), set_of(alloc, sets.3)) else {
        return None;
    };
    check(alloc, &map, &x, &a, &y, &b)
}

// How many cells a domain and a range have, where all values are acyclic, and their dimension.
fn counts(alloc: Global, map: &str, sets: Pairs) -> Option<(u32, u32, u8)> {
    match told_of_values(alloc, map, sets) {
        Some(Ok(carrier)) => {
            let domain = carrier.domain_cells().len();
            Some((domain, carrier.range_cells().len(), carrier.dimension()))
        }
        _ => None,
    }
}

#[test]
fn acyclic_values_are_carried(rt: HostRuntime) {
    let line = "(-4) (-3) (-2) (-1) (0) (1) (2) (3)";
    let ends = (
        "(-2) (-1) (0) (1)",
        "(-2) (1)",
        line,
        "(-4) (-3) (-2) (1) (2) (3)",
    );
    assert!(rt; counts(rt.alloc(), DOUBLING, ends) == Some((9, 17, 1)));
    let squares = "(0 0) -> {(0 0) (1 0)} (1 0) -> {(1 0) (1 1)}";
    let all = "(0 0) (1 0) (1 1)";
    assert!(rt;
        counts(
            rt.alloc(),
            squares,
            ("(0 0) (1 0)", "(0 0) (1 0)", all, all)
        ) == Some((15, 21, 2))
    );
}

// The value that a carrier has at a cell of its domain.
fn carried_value(alloc: Global, carrier: &Carrier<3>, cell: &Cell) -> Option<Vec<Cell>> {
    let Some(_number) = carrier.domain_cells().number(cell) else {
        return None;
    };
    match carrier.value(alloc, cell) {
        Ok(value) => Some(value),
        Err(_) => None,
    }
}

// The value of a map at a cell of a set that it sends to another set.
fn plain_value(
    alloc: Global,
    map: &CubeMap,
    x: &CubeSet,
    y: &CubeSet,
    cell: &Cell,
) -> Option<Vec<Cell>> {
    let Ok(()) = check_sets::<3>(map, x, x, y, y) else {
        return None;
    };
    let Ok(faces) = x.closure(alloc) else {
        return None;
    };
    if !faces.holds(cell) {
        return None;
    }
    match value_at(alloc, map, x, cell) {
        Ok(value) => Some(value),
        Err(_) => None,
    }
}

// Whether the carrier of a map, and a copy of the map, have the cells of a set as their value at a
// cell.
fn has_value(alloc: Global, map: &str, x: &str, y: &str, cell: &str, wanted: &str) -> bool {
    let (Some(map), Some(x), Some(y)) = (map_of(alloc, map), set_of(alloc, x), set_of(alloc, y))
    else {
        return false;
    };
    let (Some(cell), Some(wanted)) = (set_of(alloc, cell), faces_of(alloc, wanted)) else {
        return false;
    };
    if cell.len() != 1 {
        return false;
    }
    let cell = cell.cell(0);
    let Some(Ok(carrier)) = check(alloc, &map, &x, &x, &y, &y) else {
        return false;
    };
    let Ok(copy) = map.copy(alloc) else {
        return false;
    };
    match (
        carried_value(alloc, &carrier, &cell),
        plain_value(alloc, &copy, &x, &y, &cell),
    ) {
        (Some(carried), Some(plain)) => {
            carried.as_slice() == wanted.cells() && plain.as_slice() == wanted.cells()
        }
        _ => false,
    }
}

#[test]
fn values_are_what_all_cubes_round_a_cell_share(rt: HostRuntime) {
    let segments = "(-2) (-1) (0) (1)";
    let line = "(-4) (-3) (-2) (-1) (0) (1) (2) (3)";
    for (cell, wanted) in [
        ("[(0)(0)]", "[(0)(0)]"),
        ("(0)", "(0) (1)"),
        ("[(2)(2)]", "(2) (3)"),
    ] {
        assert!(rt; has_value(rt.alloc(), DOUBLING, segments, line, cell, wanted));
    }
    let squares = "(0 0) -> {(0 0) (1 0)} (1 0) -> {(1 0) (1 1)}";
    let all = "(0 0) (1 0) (1 1)";
    for (cell, wanted) in [
        ("[(0 0)(0 0)]", "(0 0) (1 0)"),
        ("[(1 0)(1 1)]", "(1 0)"),
        ("[(1 1)(2 1)]", "(1 0) (1 1)"),
    ] {
        assert!(rt; has_value(rt.alloc(), squares, "(0 0) (1 0)", all, cell, wanted));
    }
    // A cube that the map names outside the domain plays no part.
    assert!(rt;
        has_value(
            rt.alloc(),
            "(0) -> (0) (1) -> (5)",
            "(0)",
            "(0)",
            "[(1)(1)]",
            "(0)"
        )
    );
}
