//! A segment and a square: their words, what a sweep leaves, and the pairs that it took.
ghost use Rattle.std.specs.Prelude.{IfOk};
ghost use Rattle.word_sweeps.specs.Reached.{AreUntaken};

use cell_complex::{Numbered, relative};
use cube_sets::CubeSet;
use elem_cubes::{Cell, Corner};
use packed_words::{Words, words_of};
use std::alloc::Global;
use std::test::Fail;
use word_sweeps::{order, sweep};

/// The cell at a corner with these axes.
fn cell(lower: &[i32], axes: u8) -> Result<Cell, Fail> {
    let corner = Corner::of(lower).ok_or("a corner")?;
    let cell = Cell::new(corner, axes).ok_or("a cell")?;
    Ok(cell)
}

/// The cells of a cube.
fn cells_of(alloc: Global, cube: Cell) -> Result<Numbered, Fail> {
    let mut cells = Vec::new(alloc);
    cells.push(cube)?;
    let dimension = cube.embedding() as u8;
    if !cube_sets::are_members(dimension, &cells) {
        return Err(Fail::from("a cube in range"));
    }
    let x = CubeSet::of_cells(dimension, cells)?;
    let a = CubeSet::of_cells(dimension, Vec::new(alloc))?;
    Ok(relative(alloc, &x, &a)?)
}

/// The words of numbered cells, of which all are alive.
fn words_alive(alloc: Global, cells: &Numbered) -> Result<Words, Fail>
    ensures { IfOk result AreUntaken }
{
    let _ = cells.len();
    let mut alive = Vec::new(alloc);
    'cells: for _ in 0..cells.len() {
        alive.push(true)?;
    }
    let words = words_of(alloc, cells, &alive)?;
    Ok(words)
}

/// Whether the words are these, in this order.
fn reads(words: &Words, expected: &[u64]) -> bool {
    for i in 0..words.len() {
        if expected.get(i as usize) != Some(&words.word(i)) {
            return false;
        }
    }
    words.len() as usize == expected.len()
}

#[test]
fn a_segment_is_swept_to_a_point(rt: HostRuntime) -> Result<(), Fail> {
    let alloc = rt.alloc();
    let start = words_alive(alloc, &cells_of(alloc, cell(&[0], 1)?)?)?;
    assert!(rt; reads(&start, &[17, 1]));
    assert!(rt; reads(&start.copy(alloc)?, &[17, 1]));
    let last = sweep(alloc, &start)?;
    assert!(rt; reads(&last, &[35, 1]));
    let pairs = order(alloc, &start, &last)?;
    let expected = (cell(&[0], 0)?, cell(&[0], 1)?);
    assert!(rt; pairs.len() == 1 && pairs.get(0) == Some(&expected));
    Ok(())
}

#[test]
fn a_square_is_swept_to_a_point(rt: HostRuntime) -> Result<(), Fail> {
    let alloc = rt.alloc();
    let start = words_alive(alloc, &cells_of(alloc, cell(&[0, 0], 3)?)?)?;
    assert!(rt; reads(&start, &[4369, 17, 257, 1]));
    let last = sweep(alloc, &start)?;
    let mut near = 0;
    let upper = cell(&[1, 1], 0)?;
    assert!(rt; last.state(&upper) == 1 && last.state_near(&upper, &mut near) == 1);
    assert!(rt; last.state(&cell(&[1, 0], 2)?) == 2 && last.state(&cell(&[1, 0], 0)?) == 4);
    let pairs = order(alloc, &start, &last)?;
    assert!(rt; pairs.len() == 4);
    Ok(())
}

#[test]
fn words_are_found_by_their_cells(rt: HostRuntime) -> Result<(), Fail> {
    let alloc = rt.alloc();
    let words = words_alive(alloc, &cells_of(alloc, cell(&[0, 0], 3)?)?)?;
    let mut near = 0;
    let found = words.word_near(&cell(&[1, 0], 0)?, &mut near);
    assert!(rt; found == 257 && words.place(&cell(&[1, 0], 0)?) == 2);
    let away = cell(&[5, 0], 0)?;
    assert!(rt; words.word_near(&away, &mut near) == 0 && words.state(&away) == 0);
    if words.len() != 4 {
        return Err(Fail::from("four words"));
    }
    assert!(rt; words.point(1) == cell(&[0, 1], 0)?.lower() && words.upper(1) == 0);
    Ok(())
}
