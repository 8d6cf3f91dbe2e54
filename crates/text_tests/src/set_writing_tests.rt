//! Sets that are written, and read again.
use cube_sets::CUBES;
use grid_files::{Kind, read_set, write_set};
use std::alloc::Global;

// Whether the set of a text, read with any kind of cell, is written so.
fn is_written(alloc: Global, text: &str, wanted: &str) -> bool {
    let Ok(set) = read_set(alloc, text.as_bytes(), Kind::Any) else {
        return false;
    };
    if set.len() > CUBES {
        return false;
    }
    match write_set(alloc, &set) {
        Ok(found) => found.as_slice() == wanted.as_bytes(),
        Err(_) => false,
    }
}

#[test]
fn written_forms(rt: HostRuntime) {
    for (text, wanted) in [
        ("", ""),
        ("dimension 3", "dimension 3\n"),
        (
            "(1 0) (0,-7)\n[(0 0)(1 0)]",
            "dimension 2\n(0 -7)\n[(0 0)(1 0)]\n(1 0)\n",
        ),
        ("[(3)(4)][(2)(2)]", "dimension 1\n[(2)(2)]\n(3)\n"),
    ] {
        assert!(rt; is_written(rt.alloc(), text, wanted), "in {text:?}");
        assert!(rt; is_written(rt.alloc(), wanted, wanted), "again {text:?}");
    }
}
