//! A segment, a square and nine squares, with subsets in their middle, at a corner, around, far away,
//! and whole.
use cube_sets::CubeSet;
use excision::excise;
use field_mod::Field;
use grid_files::{Kind, read_set};
use homology_basis::{Prepared, prepare};
use std::alloc::Global;
use std::test::Fail;

const NINE: &str = "(0 0) (0 1) (0 2) (1 0) (1 1) (1 2) (2 0) (2 1) (2 2)";

const BORDER: &str = "[(0 0)(1 0)] [(0 0)(0 1)] [(0 1)(1 1)] [(1 0)(1 1)]";

fn set(alloc: Global, text: &str) -> Result<CubeSet, Fail> {
    Ok(read_set(alloc, text.as_bytes(), Kind::Any)?)
}

/// How many relative cells there are, how many members are moved, and how many cells are left.
fn counts(alloc: Global, x: &str, a: &str) -> Result<(u32, usize, usize), Fail> {
    let field: Field<2> = Field::get().ok_or("2 is in the table")?;
    let Prepared {
        cells,
        grown,
        left,
        ..
    } = prepare(alloc, field, &set(alloc, x)?, &set(alloc, a)?)?;
    Ok((cells.len(), grown.len(), left.len()))
}

#[test]
fn members_that_touch_at_a_corner_are_kept(rt: HostRuntime) -> Result<(), Fail> {
    let alloc = rt.alloc();
    let x = set(alloc, "(0 0)")?;
    let a = set(alloc, "(1 1) (2 2) (-1 -1) (0 7)")?;
    let near = excise(alloc, &x, &a)?;
    assert_eq!(rt; near.len(), 2);
    Ok(())
}

#[test]
fn a_segment_grows_from_one_end_alone(rt: HostRuntime) -> Result<(), Fail> {
    assert_eq!(rt; counts(rt.alloc(), "(0)", "[(0)(0)]")?, (2, 1, 0));
    assert_eq!(rt; counts(rt.alloc(), "(0)", "[(0)(0)] [(1)(1)]")?, (1, 0, 1));
    Ok(())
}

#[test]
fn a_square_does_not_grow_from_its_border(rt: HostRuntime) -> Result<(), Fail> {
    assert_eq!(rt; counts(rt.alloc(), "(0 0)", BORDER)?, (1, 0, 1));
    Ok(())
}

#[test]
fn a_border_does_not_collapse(rt: HostRuntime) -> Result<(), Fail> {
    assert_eq!(rt; counts(rt.alloc(), BORDER, "")?, (8, 0, 8));
    Ok(())
}

#[test]
fn squares_collapse_to_a_vertex(rt: HostRuntime) -> Result<(), Fail> {
    assert_eq!(rt; counts(rt.alloc(), "(0 0)", "")?, (9, 0, 1));
    assert_eq!(rt; counts(rt.alloc(), NINE, "(9 9)")?, (49, 0, 1));
    Ok(())
}

#[test]
fn nine_squares_grow_from_one_of_them(rt: HostRuntime) -> Result<(), Fail> {
    assert_eq!(rt; counts(rt.alloc(), NINE, "(1 1)")?, (40, 8, 0));
    assert_eq!(rt; counts(rt.alloc(), NINE, "(0 0)")?, (40, 8, 0));
    assert_eq!(rt; counts(rt.alloc(), NINE, NINE)?, (0, 0, 0));
    Ok(())
}

#[test]
fn a_ring_does_not_close(rt: HostRuntime) -> Result<(), Fail> {
    let ring = "(0 0) (1 0) (2 0) (0 1) (2 1) (0 2) (1 2) (2 2)";
    let (_, grown, left) = counts(rt.alloc(), ring, "(0 0)")?;
    assert_eq!(rt; grown, 6);
    assert!(rt; left > 0);
    Ok(())
}
