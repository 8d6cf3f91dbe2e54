//! Whether shapes are one but for a move.
ghost use Rattle.std.specs.Prelude.{◌≡◌, map, IsTrue};
ghost use Rattle.cell_complex.specs.Moved.{moved};
ghost use Rattle.map_checks.specs.Shapes.{AreEndsMoved, IsMovedShape};

use crate::shape::Shape;
use cell_complex::CellList;
use elem_cubes::{Cell, Corner, MAX_EMBEDDING};

/// The first cube of some lists, which is the first of the first list.
pub(crate) fn first_cube(values: &[CellList]) -> Option<Cell> {
    let value = values.first()?;
    value.cells().first().copied()
}

// How far one cell lies from another of the same embedding, where a corner tells it.
fn displacement(from: &Cell, to: &Cell) -> Option<Corner> {
    let (from, to) = (from.lower(), to.lower());
    let mut ends = [0; MAX_EMBEDDING];
    if from.len() != to.len() {
        return None;
    }
    for i in 0..from.len() {
        ends[i] = to.at(i).checked_sub(from.at(i))?;
    }
    Corner::of(&ends[..from.len()])
}

// How far the first cube of some lists lies from that of others.
fn displacement_of(from: &[CellList], to: &[CellList]) -> Option<Corner> {
    displacement(&first_cube(from)?, &first_cube(to)?)
}

// Whether each of the coordinates is moved by so much.
fn are_ends_moved(by: &[i32], from: &[i32], to: &[i32]) -> bool
    ensures { IsTrue result → AreEndsMoved by.now from.now to.now }
{
    if by.len() != from.len() || from.len() != to.len() {
        return false;
    }
    for i in 0..from.len() {
        if i64::from(from[i]) + i64::from(by[i]) != i64::from(to[i]) {
            return false;
        }
    }
    true
}

// Whether the second cell is the first one moved.
fn is_moved(by: &[i32], from: &Cell, to: &Cell) -> bool
    ensures { IsTrue result → to.now ≡ moved by.now from.now }
{
    if from.axes() != to.axes() {
        return false;
    }
    are_ends_moved(by, from.lower().coordinates(), to.lower().coordinates())
}

// Whether the second cells are the first ones moved, each for each.
fn are_moved(by: &[i32], from: &[Cell], to: &[Cell]) -> bool
    ensures { IsTrue result → to.now ≡ map (moved by.now) from.now }
{
    if from.len() != to.len() {
        return false;
    }
    for i in 0..from.len() {
        if !is_moved(by, &from[i], &to[i]) {
            return false;
        }
    }
    true
}

// Whether the second lists are the first ones moved, each for each.
fn all_moved(by: &[i32], from: &[CellList], to: &[CellList]) -> bool
    ensures { IsTrue result → to.now ≡ map (map (moved by.now)) from.now }
{
    if from.len() != to.len() {
        return false;
    }
    for i in 0..from.len() {
        if !are_moved(by, from[i].cells(), to[i].cells()) {
            return false;
        }
    }
    true
}

/// Whether a shape is another one, which is not empty, but for a move.
pub(crate) fn is_moved_shape(from: &Shape, to: &Shape) -> bool
    ensures { IsTrue result → IsMovedShape from.now to.now }
{
    if from.values().is_empty() {
        return false;
    }
    match displacement_of(from.values(), to.values()) {
        Some(by) => all_moved(by.coordinates(), from.values(), to.values()),
        None => false,
    }
}
