//! Signs, orders and ranges on small cells.
use elem_cubes::{Cell, Corner, HIGH, LOW, range_is_of_the_formats};
use std::process::Abort;

// Cells by their lower corners and axes, with signs.
type Sides<'a> = &'a [(&'a [i32], u8, i8)];

// Cells by their lower corners and axes.
type Cells<'a> = &'a [(&'a [i32], u8)];

fn corner(rt: &impl Abort, xs: &[i32]) -> Corner {
    Corner::of(xs).expect(rt, "a corner")
}

fn cell(rt: &impl Abort, xs: &[i32], axes: u8) -> Cell {
    Cell::new(corner(rt, xs), axes).expect(rt, "a cell")
}

// The facets of a cell are these, in this order.
fn has_facets(rt: &impl Abort, xs: &[i32], axes: u8, wanted: Sides) {
    let mut facets = cell(rt, xs, axes).faces();
    for (xs, axes, sign) in wanted {
        let facet = cell(rt, xs, *axes);
        assert!(rt; facets.next() == Some((facet, *sign)));
    }
    assert!(rt; facets.next().is_none());
}

// The cofaces of a cell in the range of files are these, in this order.
fn has_cofaces(rt: &impl Abort, xs: &[i32], axes: u8, wanted: Sides) {
    let cell_below = cell(rt, xs, axes);
    assert!(rt; cell_below.in_range());
    let mut cofaces = cell_below.cofaces();
    for (xs, axes, sign) in wanted {
        let coface = cell(rt, xs, *axes);
        assert!(rt; cofaces.next() == Some((coface, *sign)));
    }
    assert!(rt; cofaces.next().is_none());
}

// Each of these cells is less than the next.
fn rise(rt: &impl Abort, cells: Cells) {
    for pair in cells.windows(2) {
        let first = cell(rt, pair[0].0, pair[0].1);
        let second = cell(rt, pair[1].0, pair[1].1);
        assert!(rt; first < second && second == second && first != second);
    }
}

#[test]
fn facets_stand_at_upper_and_lower_ends_and_their_signs_turn(rt: HostRuntime) {
    has_facets(&rt, &[4], 1, &[(&[5], 0, 1), (&[4], 0, -1)]);
    has_facets(
        &rt,
        &[2, 3, 4],
        4,
        &[(&[2, 3, 5], 0, 1), (&[2, 3, 4], 0, -1)],
    );
    let of_square: Sides = &[
        (&[1, 7], 2, 1),
        (&[0, 7], 2, -1),
        (&[0, 8], 1, -1),
        (&[0, 7], 1, 1),
    ];
    has_facets(&rt, &[0, 7], 3, of_square);
    let of_cube: Sides = &[
        (&[1, 0, 0], 6, 1),
        (&[0, 0, 0], 6, -1),
        (&[0, 1, 0], 5, -1),
        (&[0, 0, 0], 5, 1),
        (&[0, 0, 1], 3, 1),
        (&[0, 0, 0], 3, -1),
    ];
    has_facets(&rt, &[0, 0, 0], 7, of_cube);
}

#[test]
fn cofaces_go_upward_and_downward(rt: HostRuntime) {
    let of_edge: Sides = &[
        (&[0, 5, 9], 3, 1),
        (&[0, 4, 9], 3, -1),
        (&[0, 5, 9], 5, 1),
        (&[0, 5, 8], 5, -1),
    ];
    has_cofaces(&rt, &[0, 5, 9], 1, of_edge);
    let of_point: Sides = &[
        (&[3, 0], 1, -1),
        (&[2, 0], 1, 1),
        (&[3, 0], 2, -1),
        (&[3, -1], 2, 1),
    ];
    has_cofaces(&rt, &[3, 0], 0, of_point);
}

#[test]
fn cells_are_in_order_by_lower_and_then_by_upper_corner(rt: HostRuntime) {
    let cells: Cells = &[
        (&[-1, 9], 3),
        (&[0], 1),
        (&[0, 0], 0),
        (&[0, 0], 2),
        (&[0, 0], 1),
        (&[0, 0], 3),
        (&[0, 1], 0),
    ];
    rise(&rt, cells);
}

#[test]
fn the_closure_of_a_square_has_nine_cells(rt: HostRuntime) {
    let square = cell(&rt, &[0, 0, 8], 3);
    let mut count = 0u32;
    let mut points = 0u32;
    for face in square.closure() {
        assert!(rt; square.has_face(&face));
        points = points.saturating_add(u32::from(face.dim() == 0));
        count = count.saturating_add(1);
    }
    assert!(rt; count == 9 && points == 4);
}

#[test]
fn parts_of_a_cell(rt: HostRuntime) {
    let edge = cell(&rt, &[2, -5], 2);
    assert!(rt; edge.lower() == corner(&rt, &[2, -5]) && edge.upper() == corner(&rt, &[2, -4]));
    assert!(rt; edge.axes() == 2 && edge.dim() == 1 && edge.embedding() == 2 && !edge.is_full());
    assert!(rt; edge.has_face(&edge) && edge.has_face(&cell(&rt, &[2, -4], 0)));
    assert!(rt; !edge.has_face(&cell(&rt, &[2, -3], 0)) && !edge.has_face(&cell(&rt, &[2], 0)));
    assert!(rt; cell(&rt, &[1, 1, 1, 1], 15).is_full());
    let end = corner(&rt, &[7, 8, 9]);
    assert!(rt; end.len() == 3);
    assert!(rt; end.at(2) == 9);
}

#[test]
fn corners_and_full_cells_have_a_range(rt: HostRuntime) {
    assert!(rt; LOW == -1_073_741_824 && HIGH == 1_073_741_825);
    let refused: [&[i32]; 4] = [&[], &[0, 0, 0, 0, 0], &[LOW - 2], &[HIGH + 2]];
    for xs in refused {
        assert!(rt; Corner::of(xs).is_none());
    }
    for (x, axes, fits) in [
        (HIGH + 1, 1, false),
        (HIGH + 1, 0, true),
        (HIGH + 1, 2, false),
        (HIGH, 1, true),
    ] {
        assert!(rt; Cell::new(corner(&rt, &[x]), axes).is_some() == fits);
    }
}

#[test]
fn cells_of_files_have_a_range(rt: HostRuntime) {
    for (x, axes, fits) in [
        (LOW - 1, 0, false),
        (LOW - 1, 1, false),
        (LOW, 0, true),
        (HIGH, 0, true),
        (HIGH - 1, 1, true),
        (HIGH, 1, false),
    ] {
        assert!(rt; cell(&rt, &[x], axes).in_range() == fits);
    }
}

#[test]
fn an_edge_in_the_plane_has_ends_and_moves(rt: HostRuntime) {
    let edge = cell(&rt, &[0, 5], 2);
    let fits = edge.embedding() == 2 && edge.is_wide(1) && edge.in_range();
    assert!(rt; fits);
    assert!(rt; !edge.is_wide(0) && edge.lower_end(0) == edge);
    assert!(rt; edge.lower_end(1) == cell(&rt, &[0, 5], 0));
    assert!(rt; edge.upper_end(1) == cell(&rt, &[0, 6], 0));
    assert!(rt; edge.moved_up(0) == cell(&rt, &[1, 5], 2));
    assert!(rt; edge.moved_down(0) == cell(&rt, &[-1, 5], 2));
    assert!(rt; edge.moved_up(1) == cell(&rt, &[0, 6], 2));
    assert!(rt; edge.moved_down(1) == cell(&rt, &[0, 4], 2));
}

#[test]
fn the_numbers_of_the_range_are_those_of_the_formats() {
    range_is_of_the_formats();
}
