//! Single lines: which are read, which may not stand there, which name other cells.
use field_mod::Field;
use std::alloc::Global;
use witness_runs::{Miss, due_chain, due_cycle, due_vertex};

// The kinds of four cells: a vertex, two edges, a vertex.
const KINDS: [u8; 4] = [1, 2, 2, 1];

// Why the text does not begin with the line `h 5:` of a chain of edges, modulo 7.
fn miss_of_chain(alloc: Global, text: &str) -> Option<Miss> {
    let field = Field::<7>::get()?;
    match due_chain(alloc, field, text.as_bytes(), b"h", &[5], &KINDS, 2) {
        Ok(_) => None,
        Err(miss) => Some(miss),
    }
}

// Why it does not begin with the line of a cycle of a degree from 1 to 2, modulo 7.
fn miss_of_cycle(alloc: Global, text: &str) -> Option<Miss> {
    let field = Field::<7>::get()?;
    match due_cycle(alloc, field, text.as_bytes(), 1, 2, &KINDS) {
        Ok(_) => None,
        Err(miss) => Some(miss),
    }
}

// Why it does not begin with the line of a vertex for the cell of number 3.
fn miss_of_vertex(text: &str) -> Option<Miss> {
    match due_vertex(text.as_bytes(), 3, &KINDS, 1) {
        Ok(_) => None,
        Err(miss) => Some(miss),
    }
}

#[test]
fn lines_of_chains(rt: HostRuntime) {
    for (text, miss) in [
        ("h 5:\n", None),
        ("h 5: 1*2\n", None),
        ("h 5: 6*2 1*3\nend\n", None),
        ("h 5: 1*2", Some(Miss::Text)),
        ("h 4: 1*2\n", Some(Miss::Text)),
        ("h 05: 1*2\n", Some(Miss::Text)),
        ("h 5 : 1*2\n", Some(Miss::Text)),
        ("c 5: 1*2\n", Some(Miss::Text)),
        ("h 5: 1*2 \n", Some(Miss::Text)),
        ("h 5:  1*2\n", Some(Miss::Text)),
        ("h 5: 0*2\n", Some(Miss::Text)),
        ("h 5: 7*2\n", Some(Miss::Text)),
        ("h 5: 01*2\n", Some(Miss::Text)),
        ("h 5: 1*02\n", Some(Miss::Text)),
        ("h 5: 1*3 1*2\n", Some(Miss::Text)),
        ("h 5: 1*2 1*2\n", Some(Miss::Text)),
        (
            "h 5: 1*99999999999999999999 1*99999999999999999998\n",
            Some(Miss::Text),
        ),
        (
            "h 5: 1*99999999999999999998 1*99999999999999999999\n",
            Some(Miss::Cell),
        ),
        ("h 5: 1*5\n", Some(Miss::Cell)),
        ("h 5: 1*0\n", Some(Miss::Cell)),
        ("h 5: 1*2 1*4\n", Some(Miss::Cell)),
    ] {
        assert_eq!(rt; miss_of_chain(rt.alloc(), text), miss, "{text}");
    }
}

#[test]
fn lines_of_cycles_and_vertices(rt: HostRuntime) {
    for (text, miss) in [
        ("z 1: 1*2 6*3\n", None),
        ("z 2:\n", None),
        ("z 1: 1*1\n", Some(Miss::Cell)),
        ("z 0: 1*1\n", Some(Miss::Text)),
        ("z 3:\n", Some(Miss::Text)),
        ("z 4294967297:\n", Some(Miss::Text)),
    ] {
        assert_eq!(rt; miss_of_cycle(rt.alloc(), text), miss, "{text}");
    }
    for (text, miss) in [
        ("v 3 4\n", None),
        ("v 3 2\n", Some(Miss::Cell)),
        ("v 3 4294967297\n", Some(Miss::Cell)),
        ("v 3 04\n", Some(Miss::Text)),
        ("v 2 4\n", Some(Miss::Text)),
        ("v 3 4", Some(Miss::Text)),
    ] {
        assert_eq!(rt; miss_of_vertex(text), miss, "{text}");
    }
}
