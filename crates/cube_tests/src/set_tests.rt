//! Sets of cells on small examples, by their texts.
use cube_sets::{CubeSet, SetFault, cells_are_faces, limit_is_of_the_formats, neighbours_meet};
use elem_cubes::{Cell, Corner};
use grid_files::{CUBES, Kind, read_set, write_set};
use std::alloc::Global;
use std::test::Fail;

// The set of a text, where it has one.
fn set_of(alloc: Global, text: &str) -> Option<CubeSet> {
    read_set(alloc, text.as_bytes(), Kind::Any).ok()
}

// Whether a set is written so.
fn is_written(alloc: Global, set: &CubeSet, wanted: &str) -> bool {
    if set.len() > CUBES {
        return false;
    }
    match write_set(alloc, set) {
        Ok(text) => text.as_slice() == wanted.as_bytes(),
        Err(_) => false,
    }
}

// Whether the cells of the set of a text are written so, also where their own are taken once more.
fn has_cells(alloc: Global, text: &str, wanted: &str) -> bool {
    let Some(set) = set_of(alloc, text) else {
        return false;
    };
    let Ok(faces) = set.closure(alloc) else {
        return false;
    };
    let Ok(again) = faces.closure(alloc) else {
        return false;
    };
    is_written(alloc, &faces, wanted) && is_written(alloc, &again, wanted)
}

#[test]
fn cells_stand_in_order(rt: HostRuntime) {
    for (text, wanted) in [
        (
            "(1) (0) (1)",
            "dimension 1\n[(0)(0)]\n(0)\n[(1)(1)]\n(1)\n[(2)(2)]\n",
        ),
        (
            "[(0 0)(0 1)] [(0 0)(1 0)] [(5 5)(5 5)]",
            "dimension 2\n[(0 0)(0 0)]\n[(0 0)(0 1)]\n[(0 0)(1 0)]\n[(0 1)(0 1)]\n[(1 0)(1 0)]\n\
             [(5 5)(5 5)]\n",
        ),
        ("dimension 3", "dimension 3\n"),
        ("", ""),
    ] {
        assert!(rt; has_cells(rt.alloc(), text, wanted), "in {text:?}");
    }
}

// How many cells the set of a text has, counted up to a limit; nothing where they are more.
fn count_within(alloc: Global, text: &str, limit: u32) -> Option<u32> {
    let set = set_of(alloc, text)?;
    match set.closure_within(alloc, limit) {
        Ok(faces) => Some(faces.len()),
        Err(_) => None,
    }
}

#[test]
fn cells_are_given_up_to_their_limit(rt: HostRuntime) {
    for (text, limit, wanted) in [
        ("(0 0) (1 1)", 17, Some(17)),
        ("(0 0) (1 1)", 16, None),
        ("(0 0) (1 1)", 1, None),
        ("", 0, Some(0)),
    ] {
        assert!(rt;
            count_within(rt.alloc(), text, limit) == wanted,
            "up to {limit}"
        );
    }
}

// What the set of a text has round it, where its members are full.
fn around(alloc: Global, text: &str) -> Option<Result<CubeSet, SetFault>> {
    let set = set_of(alloc, text)?;
    if set.is_full() {
        Some(set.neighbourhood(alloc))
    } else {
        None
    }
}

// How many neighbours the set of a text has, or none where one leaves the range.
fn neighbours(alloc: Global, text: &str) -> Option<u32> {
    match around(alloc, text)? {
        Ok(set) => Some(set.len()),
        Err(SetFault::Coordinates) => None,
        Err(_) => Some(u32::MAX),
    }
}

#[test]
fn neighbours_share_a_point_and_stay_in_range(rt: HostRuntime) {
    for (text, wanted) in [
        ("", Some(0)),
        ("(0)", Some(3)),
        ("(4 4)", Some(9)),
        ("(0 0) (1 1)", Some(14)),
        ("(0 0 0 0)", Some(81)),
        ("(7 7) (1073741824 0)", None),
        ("(7 7) (0 -1073741824)", None),
        ("(7 7) (0 1073741824)", None),
        ("(7 7) (-1073741824 -1073741824)", None),
        ("(7 7) (1073741823 0)", Some(18)),
        ("(7 7) (-1073741823 1073741823)", Some(18)),
    ] {
        assert!(rt; neighbours(rt.alloc(), text) == wanted, "round {text:?}");
    }
}

// Whether the neighbours of a square are written so.
fn has_neighbours(alloc: Global, text: &str, wanted: &str) -> bool {
    match around(alloc, text) {
        Some(Ok(set)) => is_written(alloc, &set, wanted),
        _ => false,
    }
}

#[test]
fn a_square_has_neighbours_on_all_sides(rt: HostRuntime) {
    let wanted = "dimension 2\n(3 3)\n(3 4)\n(3 5)\n(4 3)\n(4 4)\n(4 5)\n(5 3)\n(5 4)\n(5 5)\n";
    assert!(rt; has_neighbours(rt.alloc(), "(4 4)", wanted));
}

// How many members the sets of two texts have in all and in common.
fn in_all_and_in_common(alloc: Global, first: &str, second: &str) -> Option<(u32, u32)> {
    let first = set_of(alloc, first)?;
    let second = set_of(alloc, second)?;
    if first.dimension() != second.dimension() || first.len() > 100 || second.len() > 100 {
        return None;
    }
    let all = first.union(alloc, &second).ok()?;
    let both = first.intersection(alloc, &second).ok()?;
    Some((all.len(), both.len()))
}

#[test]
fn unions_and_intersections(rt: HostRuntime) {
    for (first, second, wanted) in [
        ("(1) (0)", "(2)", (3, 0)),
        ("(1) (0)", "(1) (0)", (2, 2)),
        ("(1) (0)", "(1) [(1)(1)]", (3, 1)),
    ] {
        let found = in_all_and_in_common(rt.alloc(), first, second);
        assert!(rt; found == Some(wanted), "{first:?}, {second:?}");
    }
}

// The full cube with this lower corner.
fn cube(xs: &[i32]) -> Result<Cell, Fail> {
    let corner = Corner::of(xs).ok_or("no corner")?;
    Ok(Cell::full(&corner).ok_or("no cube")?)
}

#[test]
fn members_are_sorted_and_distinct(rt: HostRuntime) -> Result<(), Fail> {
    let set = set_of(rt.alloc(), "(1) (0) (1)").ok_or("no set")?;
    let (zero, one, two) = (cube(&[0])?, cube(&[1])?, cube(&[2])?);
    assert!(rt; set.dimension() == 1 && !set.is_empty());
    assert!(rt; set.cells() == [zero, one].as_slice());
    assert!(rt; set.holds(&one) && !set.holds(&two));
    let len = set.len();
    assert!(rt; len == 2);
    assert!(rt; set.cell(1) == one);
    Ok(())
}

#[test]
fn laws_hold() {
    cells_are_faces();
    limit_is_of_the_formats();
    neighbours_meet();
}
