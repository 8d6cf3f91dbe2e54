//! Each limit at its number and one past it.
use crate::rows::{held, status_over, status_with};
use faults::Status;
use outside::put_number;
use std::alloc::Global;
use std::test::Fail;

#[test]
fn the_limit_of_bytes_is_exact(rt: HostRuntime) -> Result<(), Fail> {
    let alloc = rt.alloc();
    for (bytes, wanted) in [(67_108_864, Status::Done), (67_108_865, Status::Limit)] {
        let text = vec![in alloc; b' '; bytes]?;
        let status = status_over(&rt, alloc, &["homcubes", "long"], "long", text)?;
        assert_eq!(rt; status, wanted);
    }
    Ok(())
}

// The text of so many edges in a row.
fn edges(alloc: Global, count: u32) -> Result<Vec<u8>, Fail> {
    let mut text = Vec::new(alloc);
    for n in 0..count {
        text.push(b'(')?;
        put_number(&mut text, i64::from(n))?;
        text.push(b')')?;
    }
    Ok(text)
}

#[test]
fn the_limit_of_cubes_is_exact(rt: HostRuntime) -> Result<(), Fail> {
    let alloc = rt.alloc();
    for (count, wanted) in [(524_287, Status::Done), (524_288, Status::Limit)] {
        let text = edges(alloc, count)?;
        let status = status_over(&rt, alloc, &["cubcells", "row"], "row", text)?;
        assert_eq!(rt; status, wanted);
    }
    Ok(())
}

#[test]
fn the_limit_of_members_is_exact(rt: HostRuntime) -> Result<(), Fail> {
    let alloc = rt.alloc();
    for (count, wanted) in [(1_048_576, Status::Done), (1_048_577, Status::Limit)] {
        let text = edges(alloc, count)?;
        let status = status_over(&rt, alloc, &["cubinter", "row", "row"], "row", text)?;
        assert_eq!(rt; status, wanted);
    }
    Ok(())
}

// A cube of dimension 3, a square, two edges and a point, apart from each other: 43 cells.
const FEW_CELLS: &str = "[(0 9 0 0)(0 10 1 1)] [(2 9 0 0)(2 9 1 1)] [(4 9 0 0)(4 9 0 1)] \
     [(6 9 0 0)(6 9 0 1)] [(8 9 0 0)(8 9 0 0)]";

// The text of cubes of dimension 4 apart from each other, of 81 cells each, and of more.
fn cubes_apart(alloc: Global, count: u32, more: &str) -> Result<Vec<u8>, Fail> {
    let mut text = Vec::from_slice(alloc, FEW_CELLS.as_bytes())?;
    text.extend_from_slice(more.as_bytes())?;
    for n in 0..count {
        text.push(b'(')?;
        put_number(&mut text, i64::from(n) * 2)?;
        text.extend_from_slice(b" 0 0 0)")?;
    }
    Ok(text)
}

#[test]
fn the_limit_of_cells_is_exact(rt: HostRuntime) -> Result<(), Fail> {
    let alloc = rt.alloc();
    for (more, wanted) in [("", Status::Done), ("[(9 9 0 0)(9 9 0 0)]", Status::Limit)] {
        let text = cubes_apart(alloc, 51_781, more)?;
        let status = status_over(&rt, alloc, &["homcubes", "apart"], "apart", text)?;
        assert_eq!(rt; status, wanted);
    }
    Ok(())
}

#[test]
fn the_limit_of_cells_of_a_witness_is_exact(rt: HostRuntime) -> Result<(), Fail> {
    let alloc = rt.alloc();
    for (more, wanted) in [("[(-9)(-9)]", Status::Done), ("(-9)", Status::Limit)] {
        let mut text = edges(alloc, 2047)?;
        text.extend_from_slice(more.as_bytes())?;
        let status = status_over(
            &rt,
            alloc,
            &["homcubes", "row", "--witness", "w"],
            "row",
            text,
        )?;
        assert_eq!(rt; status, wanted);
    }
    Ok(())
}

// A map that sends one edge to a row of so many, the edge, the row, and an empty file.
fn onto_a_row(alloc: Global, count: u32) -> Result<Vec<(String, Vec<u8>)>, Fail> {
    let row = edges(alloc, count)?;
    let mut map = Vec::from_slice(alloc, b"(0) -> {")?;
    map.extend_from_slice(&row)?;
    map.push(b'}')?;
    let mut files = held(alloc, &[("edge", "(0)"), ("none", "")])?;
    files.push((String::from_str(alloc, "map")?, map))?;
    files.push((String::from_str(alloc, "row")?, row))?;
    Ok(files)
}

// The edge and both its ends have the row for their value: three times 2,363 times 2,363 is below
// the limit, and three times 2,365 times 2,365 above it.
#[test]
fn the_limit_of_values_with_a_witness_is_kept(rt: HostRuntime) -> Result<(), Fail> {
    let alloc = rt.alloc();
    let words = [
        "homcubes",
        "--map",
        "map",
        "edge",
        "none",
        "row",
        "none",
        "--witness",
        "w",
    ];
    for (count, wanted) in [(1181, Status::Done), (1182, Status::Limit)] {
        let files = onto_a_row(alloc, count)?;
        let status = status_with(&rt, alloc, &words, files)?;
        assert_eq!(rt; status, wanted);
    }
    Ok(())
}

#[test]
fn the_limit_of_coordinates_is_exact(rt: HostRuntime) -> Result<(), Fail> {
    let alloc = rt.alloc();
    for (text, wanted) in [
        ("(1073741823)", Status::Done),
        ("(1073741824)", Status::Limit),
    ] {
        let text = Vec::from_slice(alloc, text.as_bytes())?;
        let status = status_over(&rt, alloc, &["cubnbhd", "far"], "far", text)?;
        assert_eq!(rt; status, wanted);
    }
    Ok(())
}

#[test]
fn the_limit_of_generators_is_exact(rt: HostRuntime) -> Result<(), Fail> {
    let alloc = rt.alloc();
    let at = "chain complex max dimension 1 dimension 0: 1048575 dimension 1: 1";
    let past = "chain complex max dimension 1 dimension 0: 1048576 dimension 1: 1";
    for (text, wanted) in [(at, Status::Done), (past, Status::Limit)] {
        let text = Vec::from_slice(alloc, text.as_bytes())?;
        let status = status_over(&rt, alloc, &["homchain", "many"], "many", text)?;
        assert_eq!(rt; status, wanted);
    }
    Ok(())
}

#[test]
fn the_limit_of_terms_is_exact(rt: HostRuntime) -> Result<(), Fail> {
    let alloc = rt.alloc();
    for (terms, wanted) in [(4_194_304, Status::Done), (4_194_305, Status::Limit)] {
        let head = b"chain complex max dimension 1 dimension 0: 1 dimension 1: 1 #1=1*1";
        let mut text = Vec::from_slice(alloc, head)?;
        for _ in 1..terms {
            text.extend_from_slice(b"+1*1")?;
        }
        let status = status_over(&rt, alloc, &["homchain", "terms"], "terms", text)?;
        assert_eq!(rt; status, wanted);
    }
    Ok(())
}
