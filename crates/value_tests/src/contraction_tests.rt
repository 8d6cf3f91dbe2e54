//! Lists of cells that contract to a vertex, and lists that have a hole.
ghost use Rattle.std.specs.Prelude.{◌≡◌, length, IfSome};

use crate::texts::set_of;
use acyclic_values::{Contraction, Hole, ValueFault, contract_value};
use field_mod::Field;
use std::alloc::Global;

// A contraction of the cells of the set of a text, where there is one, and how many cells there
// are.
fn contraction_of(alloc: Global, text: &str) -> Option<(u32, Contraction<3>)>
    ensures { IfSome result (λ r. length r.1.homotopies ≡ r.0) }
{
    let Some(set) = set_of(alloc, text) else {
        return None;
    };
    let Ok(faces) = set.closure(alloc) else {
        return None;
    };
    let Some(field) = Field::<3>::get() else {
        return None;
    };
    match contract_value(alloc, field, faces.cells()) {
        Ok(contraction) => Some((faces.len(), contraction)),
        Err(_) => None,
    }
}

// A hole of the cells of the set of a text, where there is one.
fn hole_of(alloc: Global, text: &str) -> Option<Hole<3>> {
    let Some(set) = set_of(alloc, text) else {
        return None;
    };
    let Ok(faces) = set.closure(alloc) else {
        return None;
    };
    let Some(field) = Field::<3>::get() else {
        return None;
    };
    match contract_value(alloc, field, faces.cells()) {
        Err(ValueFault::Hole(hole)) => Some(hole),
        _ => None,
    }
}

// Whether so many steps contract the cells of the set of a text.
fn contracts_in(alloc: Global, text: &str, steps: u32) -> bool {
    match contraction_of(alloc, text) {
        Some((_, contraction)) => contraction.step_count() == steps,
        None => false,
    }
}

// Each step takes two cells, and one cell is left.
#[test]
fn points_segments_and_cubes_contract(rt: HostRuntime) {
    for (text, steps) in [
        ("[(0)(0)]", 0),
        ("(0)", 1),
        ("(0) (1)", 2),
        ("[(0 0)(0 1)] [(0 0)(1 0)]", 2),
        ("(0 0)", 4),
        ("(0 0) (1 1)", 8),
        ("(0 0 0)", 13),
    ] {
        assert!(rt; contracts_in(rt.alloc(), text, steps));
    }
}

// Whether the vertex of a contraction of the point is its place, with no homotopy.
fn point_stays(alloc: Global) -> bool {
    let Some((count, contraction)) = contraction_of(alloc, "[(0)(0)]") else {
        return false;
    };
    count == 1 && contraction.vertex() == 0 && contraction.homotopy(0).is_empty()
}

// Whether a contraction of the segment to one of its ends moves the other end along the segment,
// and nothing else. The ends are the places 0 and 2, and the boundary of the segment, the place 1,
// is the upper end less the lower one: so the upper end is moved by 1 times the segment, the lower
// one by -1 times it.
fn segment_shrinks(alloc: Global) -> bool {
    let Some((count, contraction)) = contraction_of(alloc, "(0)") else {
        return false;
    };
    if count != 3 || contraction.step_count() != 1 {
        return false;
    }
    let (other, along) = if contraction.vertex() == 0 {
        (2, 1)
    } else {
        (0, 2)
    };
    contraction.vertex() == 2 - other
        && contraction.step(0) == (other, 1)
        && contraction.homotopy(2 - other).is_empty()
        && contraction.homotopy(1).is_empty()
        && contraction.homotopy(other).len() == 1
        && contraction.homotopy(other).coefficient(1) == along
}

#[test]
fn homotopies_are_along_the_cells(rt: HostRuntime) {
    assert!(rt; point_stays(rt.alloc()));
    assert!(rt; segment_shrinks(rt.alloc()));
}

// Whether the cells of the set of a text have a hole of a degree, or no degree where there are
// none, with chains whose product is 1.
fn has_hole(alloc: Global, text: &str, wanted: Option<u8>) -> bool {
    let Some(field) = Field::<3>::get() else {
        return false;
    };
    match hole_of(alloc, text) {
        Some(Hole::Empty) => wanted.is_none(),
        Some(
            Hole::Class {
                degree,
                cycle,
                cocycle,
            },
        ) => wanted == Some(degree) && cycle.dot(field, &cocycle) == 1,
        None => false,
    }
}

// Whether the hole of two points is one of them less the other. The cocycle is 1 on the cycle.
fn points_differ(alloc: Global) -> bool {
    match hole_of(alloc, "[(0)(0)] [(2)(2)]") {
        Some(Hole::Class { cycle, .. }) => {
            cycle.len() == 2
                && matches!(
                    (cycle.coefficient(0), cycle.coefficient(1)),
                    (1, 2) | (2, 1)
                )
        }
        _ => false,
    }
}

// The hole has the least degree: that of a ring beside a point is 0.
#[test]
fn holes_have_the_least_degree(rt: HostRuntime) {
    for (text, degree) in [
        ("", None),
        ("[(0)(0)] [(2)(2)]", Some(0)),
        ("(0) (2)", Some(0)),
        (
            "[(0 0)(0 1)] [(0 0)(1 0)] [(1 0)(1 1)] [(0 1)(1 1)]",
            Some(1),
        ),
        ("(0 0) (1 0) (2 0) (0 1) (2 1) (0 2) (1 2) (2 2)", Some(1)),
        (
            "[(0 0)(0 1)] [(0 0)(1 0)] [(1 0)(1 1)] [(0 1)(1 1)] [(5 5)(5 5)]",
            Some(0),
        ),
        (
            "[(0 0 0)(0 1 1)] [(1 0 0)(1 1 1)] [(0 0 0)(1 0 1)] \
             [(0 1 0)(1 1 1)] [(0 0 0)(1 1 0)] [(0 0 1)(1 1 1)]",
            Some(2),
        ),
    ] {
        assert!(rt; has_hole(rt.alloc(), text, degree));
    }
    assert!(rt; points_differ(rt.alloc()));
}
