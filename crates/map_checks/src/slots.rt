//! Where a shape is kept: a number that stays where the shape is moved.
use crate::moves::first_cube;
use cell_complex::CellList;
use elem_cubes::Cell;

/// How many slots there are.
pub(crate) const SLOTS: usize = 4096;

// Spreads what a slot is chosen by.
const FACTOR: u64 = 0x9e37_79b9_7f4a_7c15;

// Adds a number to a mixture of numbers.
fn mixed(mixture: u64, number: u64) -> u64 {
    mixture.wrapping_add(number).wrapping_mul(FACTOR)
}

// A number for each whole number.
fn code(far: i64) -> u64 {
    let double = far.unsigned_abs().wrapping_mul(2);
    if far < 0 {
        double.wrapping_add(1)
    } else {
        double
    }
}

// Adds how far a cube lies from another one.
fn with_place(mixture: u64, from: &Cell, to: &Cell) -> u64 {
    let (from, to) = (from.lower(), to.lower());
    let mut places = mixture;
    for i in 0..from.len().min(to.len()) {
        places = mixed(places, code(i64::from(to.at(i)) - i64::from(from.at(i))));
    }
    places
}

// Adds how many cubes a value has, and where its first and last ones lie from a cube.
fn with_value(mixture: u64, from: &Cell, value: &CellList) -> u64 {
    let count = mixed(mixture, value.len() as u64);
    match (value.cells().first(), value.cells().last()) {
        (Some(first), Some(last)) => with_place(with_place(count, from, first), from, last),
        _ => count,
    }
}

/// The slot of some values: by how many cubes each has, and where its first and last cubes lie from
/// the first of all.
pub(crate) fn slot_of(values: &[CellList]) -> usize {
    let Some(base) = first_cube(values) else {
        return 0;
    };
    let mut mixture = 0;
    for value in values {
        mixture = with_value(mixture, &base, value);
    }
    (mixture >> 32) as usize % SLOTS
}
