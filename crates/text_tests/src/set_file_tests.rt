//! Set files that are read, and that are refused.
use grid_files::{
    Kind, TextCause, TextFault, keyword_is_of_the_format, read_set, refusals_are_first,
    texts_have_one_outcome, written_sets_are_read,
};
use std::alloc::Global;
use std::process::Abort;

// Texts with places.
type Places<'a> = &'a [(&'a str, u64)];

// The cause with which a text is refused, and its place; nothing where it has a value, or no memory
// was left.
fn refusal(alloc: Global, text: &str, kind: Kind) -> Option<(u64, TextCause)> {
    match read_set(alloc, text.as_bytes(), kind) {
        Err(TextFault::At { place, cause }) => Some((place, cause)),
        _ => None,
    }
}

// Each of these texts is refused with the cause, at its place.
fn are_refused(rt: &impl Abort, alloc: Global, kind: Kind, cause: TextCause, texts: Places) {
    for (text, place) in texts {
        let wanted = Some((*place, cause));
        assert!(rt; refusal(alloc, text, kind) == wanted, "in {text:?}");
    }
}

// How many members the set of a text has, and its dimension.
fn sizes(alloc: Global, text: &str, kind: Kind) -> Option<(u32, u8)> {
    match read_set(alloc, text.as_bytes(), kind) {
        Ok(set) => Some((set.len(), set.dimension())),
        Err(_) => None,
    }
}

#[test]
fn values(rt: HostRuntime) {
    for (text, wanted) in [
        ("", (0, 0)),
        ("  ,\t\r\n", (0, 0)),
        ("; nothing but (0 0", (0, 0)),
        ("(0)", (1, 1)),
        ("(0,0)(0 0) (1\n0)", (2, 2)),
        ("[(0 0)(1 0)]", (1, 2)),
        ("dimension 3", (0, 3)),
        ("dimension 2 ; two\n(0 0)", (1, 2)),
        ("dimension2\r\n(0 0)", (1, 2)),
        ("dimensions 7 (0 0 0)\n(1)", (1, 1)),
        ("set of (cubes [\n(0 0 0 0)", (1, 4)),
        ("(-1073741824)(1073741824)", (2, 1)),
        (
            "[(-1073741824)(-1073741824)][(1073741825)(1073741825)]",
            (2, 1),
        ),
        ("(007 -0)", (1, 2)),
        ("(0 0) ; (1 0)\n(2 0)", (2, 2)),
        ("[(0)(0)]", (1, 1)),
        ("[(0 0)(1 1)] [(5 5)(5 5)]", (2, 2)),
        ("dimension 1\n[(3)(3)]", (1, 1)),
    ] {
        let found = sizes(rt.alloc(), text, Kind::Any);
        assert!(rt; found == Some(wanted), "in {text:?}");
    }
}

#[test]
fn texts_that_end_too_early(rt: HostRuntime) {
    let texts: Places = &[
        ("(", 0),
        ("(0 0", 0),
        ("(0) (", 4),
        ("(0 0) (1", 6),
        ("(0) ; )\n(1 ; )", 8),
        ("[", 0),
        ("[(", 0),
        ("[(0", 0),
        ("[(0 0", 0),
        ("[(0 0)", 0),
        ("[(0 0)(", 0),
        ("[(0 0)(1", 0),
        ("[(0 0)(1 0", 0),
        ("[(0 0)(1 0)", 0),
    ];
    are_refused(&rt, rt.alloc(), Kind::Any, TextCause::Unclosed, texts);
}

#[test]
fn bad_bytes(rt: HostRuntime) {
    let texts: Places = &[
        ("5", 0),
        ("(0 0 0 0 0 x)", 11),
        ("()", 1),
        ("(0) )", 4),
        ("[0](1)", 1),
        ("(0 -> 1)", 3),
        ("[(0)(1))", 7),
        ("dimension 2 x", 12),
        ("{", 0),
        ("(0 dimension 2)", 3),
        ("9223372036854775808", 0),
    ];
    are_refused(&rt, rt.alloc(), Kind::Any, TextCause::BadByte, texts);
}

#[test]
fn bad_numbers(rt: HostRuntime) {
    let texts: Places = &[
        ("(9223372036854775808)", 1),
        ("[(0)(-9223372036854775809)]", 5),
        ("dimension", 9),
        ("dimension \n2", 10),
        ("dimension ; 2", 10),
        ("dimension 0", 10),
        ("dimension x", 10),
        ("dimension -1", 10),
        ("dimension 9999999999999999999", 10),
    ];
    are_refused(&rt, rt.alloc(), Kind::Any, TextCause::BadNumber, texts);
}

#[test]
fn mixed_dimensions(rt: HostRuntime) {
    let texts: Places = &[
        ("(0)(0 0)", 3),
        ("dimension 1\n(0 0)", 12),
        ("(0 0)\ndimension 1", 16),
        ("dimension 2\ndimension 3", 22),
        ("(0 0)[(0)(1)]", 5),
    ];
    are_refused(
        &rt,
        rt.alloc(),
        Kind::Full,
        TextCause::MixedDimension,
        texts,
    );
}

#[test]
fn dimensions_that_are_too_large(rt: HostRuntime) {
    let texts: Places = &[
        ("(0 0 0 0 0)", 0),
        ("[(0 0 0 0 0)(0)]", 0),
        ("[(0)(0 0 0 0 0)]", 0),
        ("dimension 5", 10),
        ("(0) (0 0 0 0 0 0)", 4),
    ];
    are_refused(
        &rt,
        rt.alloc(),
        Kind::Any,
        TextCause::DimensionTooLarge,
        texts,
    );
}

#[test]
fn coordinates_that_are_too_large(rt: HostRuntime) {
    let texts: Places = &[
        ("(1073741825)", 1),
        ("(-1073741825)", 1),
        ("[(1073741826)(0)]", 2),
        ("[(0)(-1073741825)]", 5),
        ("(9223372036854775807)", 1),
        ("(0 -9223372036854775808)", 3),
        ("(0 0 0 0 0 1073741825)", 11),
    ];
    are_refused(
        &rt,
        rt.alloc(),
        Kind::Any,
        TextCause::CoordinateTooLarge,
        texts,
    );
}

#[test]
fn cubes_that_are_not_elementary(rt: HostRuntime) {
    let texts: Places = &[
        ("[(0)(2)]", 0),
        ("[(1)(0)]", 0),
        ("[(0 0)(1)]", 0),
        ("(0) [(0)(-1)]", 4),
        ("[(0 0)(1 2)]", 0),
    ];
    are_refused(&rt, rt.alloc(), Kind::Full, TextCause::NotElementary, texts);
}

#[test]
fn cubes_that_are_not_full(rt: HostRuntime) {
    let texts: Places = &[
        ("[(0)(0)]", 0),
        ("[(0 0)(1 0)]", 0),
        ("(0 0) [(0 0)(0 1)]", 6),
        ("[(0 0)(1 1)] [(5 5)(5 5)]", 13),
        ("dimension 1\n[(3)(3)]", 12),
    ];
    are_refused(&rt, rt.alloc(), Kind::Full, TextCause::NotFull, texts);
}

#[test]
fn laws_of_set_files_hold() {
    keyword_is_of_the_format();
    refusals_are_first();
    texts_have_one_outcome();
    written_sets_are_read();
}
