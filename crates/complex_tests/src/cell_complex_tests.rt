//! A segment, alone and relative to its end points, and too many cells.
ghost use Rattle.std.specs.Prelude.{IfOk};
ghost use Rattle.cell_complex.specs.Numbering.{IsOfPair};

use cell_complex::{CellsFault, Numbered, complex_of, relative, relative_within};
use cube_sets::CubeSet;
use elem_cubes::{Cell, Corner};
use field_mod::Field;
use std::alloc::Global;
use std::test::Fail;

/// The point at a place of the line, or the segment that begins there.
fn cell(lower: i32, wide: bool) -> Result<Cell, Fail> {
    let corner = Corner::of(&[lower]).ok_or("a corner")?;
    let cell = Cell::new(corner, u8::from(wide)).ok_or("a cell")?;
    Ok(cell)
}

fn point(place: i32) -> Result<Cell, Fail> {
    cell(place, false)
}

fn set_of(alloc: Global, cells: &[Cell]) -> Result<CubeSet, Fail> {
    if cells.len() > 4 || !cube_sets::are_members(1, cells) {
        return Err(Fail::from("few cells of one factor"));
    }
    let members = Vec::from_slice(alloc, cells)?;
    let set = CubeSet::of_cells(1, members)?;
    Ok(set)
}

/// The cells of the segment from 0 to 1 relative to a subset.
fn segment_relative_to(alloc: Global, subset: &[Cell]) -> Result<Numbered, Fail>
    ensures { IfOk result IsOfPair }
{
    let x = set_of(alloc, &[cell(0, true)?])?;
    let a = set_of(alloc, subset)?;
    Ok(relative(alloc, &x, &a)?)
}

/// Whether the numbered cells are these in this order, by each call that reads them.
fn lists(numbered: &Numbered, cells: &[Cell]) -> bool {
    let mut near = 0;
    let mut near_number = 0;
    for number in 0..numbered.len() {
        let cell = numbered.cell_near(number, &mut near);
        if cells.get(number as usize) != Some(&cell)
            || numbered.cell(number) != cell
            || numbered.number(&cell) != Some(number)
            || numbered.number_near(&cell, &mut near_number) != Some(number)
        {
            return false;
        }
    }
    numbered.len() as usize == cells.len() && numbered.is_empty() == cells.is_empty()
}

/// How many cells the segment from 0 to 1 has relative to two points, counted up to a limit.
fn count_within(alloc: Global, limit: usize) -> Result<Result<u32, CellsFault>, Fail> {
    if limit > 100 {
        return Err(Fail::from("a small limit"));
    }
    let x = set_of(alloc, &[cell(0, true)?])?;
    let a = set_of(alloc, &[point(1)?, point(5)?])?;
    match relative_within(alloc, &x, &a, limit) {
        Ok(numbered) => Ok(Ok(numbered.len())),
        Err(fault) => Ok(Err(fault)),
    }
}

#[test]
fn a_segment_has_three_cells(rt: HostRuntime) -> Result<(), Fail> {
    let numbered = segment_relative_to(rt.alloc(), &[])?;
    let cells = [point(0)?, cell(0, true)?, point(1)?];
    assert!(rt; lists(&numbered, &cells));
    assert_eq!(rt; numbered.number(&point(2)?), None);
    Ok(())
}

#[test]
fn a_segment_relative_to_its_ends_has_one(rt: HostRuntime) -> Result<(), Fail> {
    let numbered = segment_relative_to(rt.alloc(), &[point(0)?, point(1)?])?;
    assert!(rt; lists(&numbered, &[cell(0, true)?]));
    Ok(())
}

#[test]
fn the_boundary_of_a_segment_is_its_ends(rt: HostRuntime) -> Result<(), Fail> {
    let field = Field::<5>::get().ok_or("5 is in the table")?;
    let numbered = segment_relative_to(rt.alloc(), &[])?;
    let (degrees, boundaries) = complex_of(rt.alloc(), field, &numbered)?.into_parts();
    assert!(rt; degrees.as_slice() == [0, 1, 0].as_slice());
    assert!(rt; boundaries.len() == 3);
    assert!(rt; boundaries[1].to_vec(rt.alloc())?.as_slice() == [(0, 4), (2, 1)].as_slice());
    assert!(rt; boundaries[0].is_empty() && boundaries[2].is_empty());
    Ok(())
}

#[test]
fn sorted_cells_are_numbered_as_they_stand(rt: HostRuntime) -> Result<(), Fail> {
    let faces = set_of(rt.alloc(), &[cell(0, true)?])?.closure(rt.alloc())?;
    let numbered = Numbered::of_sorted(rt.alloc(), faces.cells())?;
    assert!(rt; lists(&numbered, faces.cells()));
    assert_eq!(rt; numbered.len(), 3);
    Ok(())
}

#[test]
fn cells_of_both_sets_count(rt: HostRuntime) -> Result<(), Fail> {
    assert!(rt; count_within(rt.alloc(), 4)? == Ok(2));
    assert!(rt; count_within(rt.alloc(), 3)? == Err(CellsFault::TooManyCells));
    assert!(rt; count_within(rt.alloc(), 1)? == Err(CellsFault::TooManyCells));
    Ok(())
}
