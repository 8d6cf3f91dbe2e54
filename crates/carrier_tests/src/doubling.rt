//! A map of the line that doubles: each segment goes to the two segments between the doubles of its
//! ends. Its domain is a line of four segments relative to the outer two, its range one of eight
//! relative to all but the inner two.
ghost use Rattle.std.specs.Prelude.{IfSome};
ghost use Rattle.pair_maps.specs.Inputs.{IsFitting};

use elem_cubes::{Cell, Corner};
use faults::Name;
use outside::MemFiles;
use pair_maps::{MapFiles, PairMap, load_pair_map};
use std::alloc::Global;

const FILES: [(&str, &str); 5] = [
    (
        "f",
        "(-2) -> {(-4) (-3)} (-1) -> {(-2) (-1)} (0) -> {(0) (1)} (1) -> {(2) (3)}",
    ),
    ("x", "(-2) (-1) (0) (1)"),
    ("a", "(-2) (1)"),
    ("y", "(-4) (-3) (-2) (-1) (0) (1) (2) (3)"),
    ("b", "(-4) (-3) (-2) (1) (2) (3)"),
];

// A file with its text.
fn file(alloc: Global, name: &str, text: &str) -> Option<(String, Vec<u8>)> {
    match (
        String::from_str(alloc, name),
        Vec::from_slice(alloc, text.as_bytes()),
    ) {
        (Ok(name), Ok(text)) => Some((name, text)),
        _ => None,
    }
}

// The files.
fn files(alloc: Global) -> Option<MemFiles> {
    let mut held = Vec::new(alloc);
    for (name, text) in FILES {
        let Some(file) = file(alloc, name, text) else {
            return None;
        };
        if held.push(file).is_err() {
            return None;
        }
    }
    Some(MemFiles::of(alloc, held, Vec::new(alloc)))
}

// A name.
fn name(alloc: Global, text: &str) -> Option<Name> {
    match Name::of(alloc, text) {
        Ok(name) => Some(name),
        Err(_) => None,
    }
}

// The names of the files.
fn names(alloc: Global) -> Option<MapFiles> {
    let (Some(map), Some(x), Some(y)) = (name(alloc, "f"), name(alloc, "x"), name(alloc, "y"))
    else {
        return None;
    };
    Some(MapFiles {
        map,
        x,
        a: name(alloc, "a"),
        y,
        b: name(alloc, "b"),
    })
}

/// The map and its sets.
pub(crate) fn doubling(alloc: Global) -> Option<PairMap>
    ensures { IfSome result IsFitting }
{
    let (Some(mut files), Some(names)) = (files(alloc), names(alloc)) else {
        return None;
    };
    match load_pair_map(alloc, &mut files, &names) {
        Ok(input) => Some(input),
        Err(_) => None,
    }
}

/// The vertex of the line at a whole number, or the segment behind it.
pub(crate) fn cell_of_line(at: i32, is_segment: bool) -> Option<Cell> {
    let Some(corner) = Corner::of(&[at]) else {
        return None;
    };
    Cell::new(corner, u8::from(is_segment))
}
