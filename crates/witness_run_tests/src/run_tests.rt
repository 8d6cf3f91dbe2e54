//! Runs of lines, and where they stop.
use field_mod::Field;
use std::alloc::Global;
use witness_laws::Law;
use witness_runs::{Stop, chains_due, cycles_due, rows_due};

// The kinds of four cells: a vertex, two edges, a vertex.
const KINDS: [u8; 4] = [1, 2, 2, 1];

// How many cycles of degrees up to 2 are read modulo 7, and how many bytes are left.
fn cycles(alloc: Global, text: &str) -> Option<Result<(usize, usize), Stop>> {
    let field = Field::<7>::get()?;
    match cycles_due(alloc, field, text.as_bytes(), 2, &KINDS) {
        Ok((cycles, rest)) => Some(Ok((cycles.len(), rest.len()))),
        Err(stop) => Some(Err(stop)),
    }
}

// The same of the lines `g 9 1:` of a chain of edges and `g 9 4:` of a chain of vertices.
fn chains(alloc: Global, text: &str) -> Option<Result<(usize, usize), Stop>> {
    let field = Field::<7>::get()?;
    match chains_due(
        alloc,
        field,
        text.as_bytes(),
        b"g",
        Some(9),
        &[1, 4],
        &KINDS,
        &[2, 1],
    ) {
        Ok((chains, rest)) => Some(Ok((chains.len(), rest.len()))),
        Err(stop) => Some(Err(stop)),
    }
}

// The same of the entries of two rows of degree 1 with two entries each.
fn rows(alloc: Global, text: &str) -> Result<(usize, usize), Stop> {
    let (entries, rest) = rows_due(alloc, text.as_bytes(), 1, 2, 2, 7)?;
    Ok((entries.len(), rest.len()))
}

// A line that fails by this law, where so many bytes are left.
fn at(left: usize, law: Law) -> Result<(usize, usize), Stop> {
    Err(Stop::At { left, law })
}

#[test]
fn runs_of_cycles(rt: HostRuntime) {
    for (text, wanted) in [
        ("", Ok((0, 0))),
        ("c 1:\n", Ok((0, 5))),
        ("z 0: 1*1\nz 1: 1*2\nz 1: 1*3\nend\n", Ok((3, 4))),
        ("z 1: 1*2\nz 0: 1*1\n", at(9, Law::Text)),
        ("z 1: 1*2\nz 1: 1*1\n", at(9, Law::Cell)),
        ("z", at(1, Law::Text)),
    ] {
        assert!(rt; cycles(rt.alloc(), text) == Some(wanted), "{text}");
    }
}

#[test]
fn runs_of_chains_and_rows(rt: HostRuntime) {
    for (text, wanted) in [
        ("g 9 1: 1*2\ng 9 4:\nend\n", Ok((2, 4))),
        ("g 9 1: 1*1\ng 9 4:\n", at(18, Law::Cell)),
        ("g 9 1:\n", at(0, Law::Text)),
        ("g 9 1:\ng 9 4: 1*2\n", at(11, Law::Cell)),
    ] {
        assert!(rt; chains(rt.alloc(), text) == Some(wanted), "{text}");
    }
    for (text, wanted) in [
        ("m 1: 0 6\nm 1: 5 4\n", Ok((4, 0))),
        ("m 1: 0 7\nm 1: 5 4\n", at(18, Law::Text)),
        ("m 1: 0 6\nm 1: 5\n", at(7, Law::Text)),
        ("m 1: 0 6\nm 1: 5 4 3\n", at(11, Law::Text)),
        ("m 1: 0 6\nm 2: 5 4\n", at(9, Law::Text)),
    ] {
        assert!(rt; rows(rt.alloc(), text) == wanted, "{text}");
    }
}
