//! Sets at their greatest size, and one past it.
use cube_sets::{CUBES, CubeSet, SetFault};
use grid_files::{Kind, TextCause, TextFault, read_set};
use outside::put_number;
use std::alloc::{AllocError, Global};
use std::test::Fail;

// The text of so many edges in a row.
fn row(alloc: Global, count: u32) -> Result<Vec<u8>, AllocError> {
    let mut text = Vec::new(alloc);
    for n in 0..count {
        text.push(b'(')?;
        put_number(&mut text, i64::from(n))?;
        text.push(b')')?;
    }
    Ok(text)
}

// The set of so many edges in a row.
fn row_set(alloc: Global, count: u32) -> Option<CubeSet> {
    let text = row(alloc, count).ok()?;
    read_set(alloc, &text, Kind::Full).ok()
}

#[test]
fn cubes_are_read_up_to_the_limit(rt: HostRuntime) -> Result<(), Fail> {
    assert!(rt; CUBES == 1_048_576);
    let mut text = row(rt.alloc(), CUBES)?;
    text.extend_from_slice(b" (0) ")?;
    let set = read_set(rt.alloc(), &text, Kind::Any)?;
    assert!(rt; set.len() == CUBES);
    let place = text.len() as u64;
    text.extend_from_slice(b"(-1) (x")?;
    let refused = read_set(rt.alloc(), &text, Kind::Any);
    let cause = TextCause::TooMany;
    assert!(rt; refused.err() == Some(TextFault::At { place, cause }));
    Ok(())
}

// How many members a set has, or none where they would be too many.
fn size_of(found: Result<CubeSet, SetFault>) -> Option<u32> {
    match found {
        Ok(set) => Some(set.len()),
        Err(SetFault::TooMany) => None,
        Err(_) => Some(0),
    }
}

// How many cells a row of edges has.
fn cells_in_a_row(alloc: Global, count: u32) -> Option<u32> {
    size_of(row_set(alloc, count)?.closure(alloc))
}

// How many neighbours a row of edges has.
fn neighbours_of_a_row(alloc: Global, count: u32) -> Option<u32> {
    let set = row_set(alloc, count)?;
    if set.is_full() {
        size_of(set.neighbourhood(alloc))
    } else {
        Some(0)
    }
}

#[test]
fn closures_and_neighbourhoods_are_made_up_to_the_limit(rt: HostRuntime) {
    for (count, wanted) in [(524_287, Some(1_048_575)), (524_288, None)] {
        assert!(rt;
            cells_in_a_row(rt.alloc(), count) == wanted,
            "{count} edges"
        );
    }
    for (count, wanted) in [(1_048_574, Some(1_048_576)), (1_048_575, None)] {
        assert!(rt;
            neighbours_of_a_row(rt.alloc(), count) == wanted,
            "{count} edges"
        );
    }
}
