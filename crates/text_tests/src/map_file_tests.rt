//! Map files: what they give, and where they are refused.
use cube_maps::{CubeMap, limit_is_of_the_formats};
use elem_cubes::{Cell, Corner};
use grid_files::{TextCause, TextFault};
use map_files::{read_map, refusals_are_first, texts_have_one_outcome};
use std::alloc::Global;
use std::test::Fail;

// The full cube with this lower corner.
fn cube(xs: &[i32]) -> Result<Cell, Fail> {
    let corner = Corner::of(xs).ok_or("no corner")?;
    Ok(Cell::full(&corner).ok_or("no cube")?)
}

// The map of a text.
fn map(alloc: Global, text: &str) -> Result<CubeMap, Fail> {
    Ok(read_map(alloc, text.as_bytes())?)
}

// Whether a map names a cube, and its value has these cubes.
fn sends(map: &CubeMap, cube: &Cell, wanted: &[Cell]) -> bool {
    match map.value(cube) {
        Some(value) => value == wanted,
        None => false,
    }
}

#[test]
fn a_cube_that_is_named_twice_has_all_its_values(rt: HostRuntime) -> Result<(), Fail> {
    let text =
        "dimension 1\n(5)->(7) map of a line\n(0) -> {(2)(1) (2)} ; a comment\n(5) ->{} (0)->(3)";
    let read = map(rt.alloc(), text)?;
    let (first, other) = (cube(&[0])?, cube(&[5])?);
    let values = [cube(&[1])?, cube(&[2])?, cube(&[3])?];
    assert!(rt; sends(&read, &first, &values));
    assert!(rt; sends(&read, &other, &[cube(&[7])?]));
    assert!(rt; sends(&read.copy(rt.alloc())?, &first, &values));
    assert!(rt; read.dimension() == 1 && read.value(&cube(&[1])?).is_none());
    let len = read.len();
    assert!(rt; len == 2);
    assert!(rt; read.source(0) == first && read.source(1) == other);
    Ok(())
}

#[test]
fn an_empty_value_names_its_cube(rt: HostRuntime) -> Result<(), Fail> {
    let read = map(rt.alloc(), "(0 0) -> {}")?;
    assert!(rt; read.dimension() == 2 && sends(&read, &cube(&[0, 0])?, &[]));
    let none = map(rt.alloc(), "; nothing\n")?;
    assert!(rt; none.dimension() == 0 && none.len() == 0);
    Ok(())
}

// Where a text is refused, and why; nothing where it has a value, or no memory was left.
fn refusal(alloc: Global, text: &str) -> Option<(u64, TextCause)> {
    match read_map(alloc, text.as_bytes()) {
        Err(TextFault::At { place, cause }) => Some((place, cause)),
        _ => None,
    }
}

#[test]
fn refused_texts(rt: HostRuntime) {
    for (text, place, cause) in [
        ("(0) (1)", 4, TextCause::BadByte),
        ("(0) -> 1", 7, TextCause::BadByte),
        ("(0) - > (1)", 4, TextCause::BadByte),
        ("(0) -> ()", 8, TextCause::BadByte),
        ("(0) -> {[", 8, TextCause::BadByte),
        ("(0) -> map", 7, TextCause::BadByte),
        ("[(0)(1)] -> (1)", 0, TextCause::BadByte),
        (" (0) -> { (1)", 1, TextCause::Unclosed),
        ("(0)->(1) (0)", 9, TextCause::Unclosed),
        ("(0) -> (1073741825)", 8, TextCause::CoordinateTooLarge),
        ("(0) -> (9223372036854775808)", 8, TextCause::BadNumber),
        (" (0) -> {(1)(2 3)}", 1, TextCause::MixedDimension),
        ("(0)->(1) (0 0)->(1 1)", 9, TextCause::MixedDimension),
        ("dimension 2 \n(0)->(1)", 13, TextCause::MixedDimension),
        ("(0)->(1)\ndimension 2", 19, TextCause::MixedDimension),
        (
            "(0)->(1) (0 0)->(1 1 1 1 1)",
            9,
            TextCause::DimensionTooLarge,
        ),
        ("(1 2 3 4 5) -> {}", 0, TextCause::DimensionTooLarge),
        ("dimension 0", 10, TextCause::BadNumber),
    ] {
        let wanted = Some((place, cause));
        assert!(rt; refusal(rt.alloc(), text) == wanted, "in {text:?}");
    }
}

#[test]
fn laws_of_map_files_hold() {
    limit_is_of_the_formats();
    refusals_are_first();
    texts_have_one_outcome();
}
