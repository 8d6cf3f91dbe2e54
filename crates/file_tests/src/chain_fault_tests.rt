//! Chain files that are refused.
use chain_files::{ChainCause, ChainFault, TERMS, read_complex};
use field_mod::Field;
use std::alloc::Global;
use std::test::Fail;

// A file up to its last degree, which has three generators above two.
const HEAD: &str = "chain complex max dimension 1 dimension 0: 2 dimension 1: 3 ";

// The cause with which a text is refused modulo 2, and its place.
fn refusal(alloc: Global, text: &[u8]) -> Option<(u64, ChainCause)> {
    let field = Field::<2>::get()?;
    match read_complex(alloc, field, text) {
        Err(ChainFault::At { place, cause }) => Some((place, cause)),
        _ => None,
    }
}

// The cause with which the text in three parts is refused at the beginning of the last one; nothing
// where it is not.
fn cause_at(alloc: Global, head: &str, front: &str, back: &str) -> Option<ChainCause> {
    let mut text = String::new(alloc);
    text.push_str(head).ok()?;
    text.push_str(front).ok()?;
    let wanted = text.len() as u64;
    text.push_str(back).ok()?;
    let (place, cause) = refusal(alloc, text.as_bytes())?;
    if place == wanted { Some(cause) } else { None }
}

#[test]
fn bad_bytes(rt: HostRuntime) {
    for (front, back) in [
        ("", "Chain complex"),
        ("", "5"),
        ("", "chains complex"),
        ("chain ", "max"),
        ("chain complex max ", "dim 1"),
        ("chain complex max dimension ", "x"),
        ("chain complex max dimension 1 ", "# 1 = 0"),
        ("chain complex max dimension 1 dimension 0 ", "2"),
        ("chain complex max dimension 1 dimension 0: 2 # 1 = 0 ", "$"),
    ] {
        let cause = cause_at(rt.alloc(), "", front, back);
        assert_eq!(rt; cause, Some(ChainCause::BadByte), "before {back:?}");
    }
    for (front, back) in [
        ("# ", "x = 0"),
        ("# 1 ", "1 = 0"),
        ("# 1 =", "= 0"),
        ("# 1 = ", "* 1"),
        ("# 1 = 2 ", "# 2 = 0"),
        ("# 1 = 0 ", "0"),
        ("# 1 = 0 ", "99999999999999999999"),
        ("# 1 = 0 ", "+ 1 * 1"),
        ("# 1 = 1 * 1 + 0 ", "# 2 = 0"),
        ("# 1 = 1 * 1 + ", "* 1"),
        ("# 1 = 1 * 1 ", "2"),
        ("# 1 = 1 * ", "#"),
        ("# 1 = 1 ", "-> 1"),
        ("", "+ 1 * 1"),
        ("", "dimension 2: 0"),
        ("# 1 = 0 ", "dimension 2: 0"),
        ("# 1 = 1 * 1 ", "dimension 2: 0"),
        ("# 1 = 0 ", "- 1"),
    ] {
        let cause = cause_at(rt.alloc(), HEAD, front, back);
        assert_eq!(rt; cause, Some(ChainCause::BadByte), "before {back:?}");
    }
}

#[test]
fn bad_numbers(rt: HostRuntime) {
    for (front, back) in [
        ("chain complex max dimension ", "64"),
        ("chain complex max dimension ", "-1"),
        ("chain complex max dimension ", "9223372036854775808"),
        ("chain complex max dimension 2 dimension ", "1: 0"),
        (
            "chain complex max dimension 2 dimension 0: 1 dimension ",
            "0: 0",
        ),
        (
            "chain complex max dimension 2 dimension 0: 1 dimension ",
            "-1",
        ),
        ("chain complex max dimension 0 dimension 0: ", "-1"),
        (
            "chain complex max dimension 0 dimension 0: ",
            "99999999999999999999",
        ),
    ] {
        let cause = cause_at(rt.alloc(), "", front, back);
        assert_eq!(rt; cause, Some(ChainCause::BadNumber), "before {back:?}");
    }
    for (front, back) in [
        ("# ", "9223372036854775808 = 0"),
        ("# 1 = ", "9223372036854775808 * 1"),
        ("# 1 = 1 * ", "-9223372036854775809"),
        ("# 1 = 1 * 1 + ", "-9223372036854775809 * 1"),
    ] {
        let cause = cause_at(rt.alloc(), HEAD, front, back);
        assert_eq!(rt; cause, Some(ChainCause::BadNumber), "before {back:?}");
    }
}

#[test]
fn texts_that_end_too_early(rt: HostRuntime) {
    for text in [
        "",
        " \n",
        "; chain complex",
        "chain",
        "chain complex max dimension",
        "chain complex max dimension 63",
        "chain complex max dimension 1 dimension 0: 2",
        "chain complex max dimension 1 dimension 0: 2 # 1 = 0",
        "chain complex max dimension 1 dimension 0: 2 dimension",
        "chain complex max dimension 1 dimension 0: 2 dimension 1 \n",
    ] {
        let cause = cause_at(rt.alloc(), "", text, "");
        assert_eq!(rt; cause, Some(ChainCause::Unclosed), "behind {text:?}");
    }
    for text in [
        "#",
        "# 1",
        "# 1 =",
        "# 1 = 2",
        "# 1 = 1 * ; 1",
        "# 1 = 1 * 1 +",
        "# 1 = 1 * 1 + 0",
    ] {
        let cause = cause_at(rt.alloc(), HEAD, text, "");
        assert_eq!(rt; cause, Some(ChainCause::Unclosed), "behind {text:?}");
    }
}

#[test]
fn generators(rt: HostRuntime) {
    for (front, back) in [
        ("# ", "0 = 0"),
        ("# ", "4 = 0"),
        ("# ", "-1 = 0"),
        ("# 1 = 1 * ", "3"),
        ("# 1 = 1 * ", "0"),
        ("# 1 = 1 * 1 + 0 * ", "-2"),
    ] {
        let cause = cause_at(rt.alloc(), HEAD, front, back);
        assert_eq!(rt;
            cause,
            Some(ChainCause::UnknownGenerator),
            "before {back:?}"
        );
    }
    let front = "chain complex max dimension 0 dimension 0: 1 # 1 = 1 * ";
    let cause = cause_at(rt.alloc(), "", front, "1");
    assert_eq!(rt; cause, Some(ChainCause::UnknownGenerator));
    for (front, back) in [
        ("# 1 = 0 # ", "1 = 0"),
        ("# 2 = 1 * 1 # 1 = 0 # ", "2 = 1 * 2"),
        ("# 1 = 1 * 1 + 1 * 2 # ", "01 = x"),
    ] {
        let cause = cause_at(rt.alloc(), HEAD, front, back);
        assert_eq!(rt;
            cause,
            Some(ChainCause::RepeatedGenerator),
            "before {back:?}"
        );
    }
}

#[test]
fn too_many_generators(rt: HostRuntime) {
    for (front, back) in [
        ("chain complex max dimension 0 dimension 0: ", "1048577"),
        (
            "chain complex max dimension 1 dimension 0: 1048576 dimension 1: ",
            "1",
        ),
        (
            "chain complex max dimension 1 dimension 0: 1 dimension 1: ",
            "1048576",
        ),
        (
            "chain complex max dimension 0 dimension 0: ",
            "9223372036854775807",
        ),
    ] {
        let cause = cause_at(rt.alloc(), "", front, back);
        assert_eq!(rt;
            cause,
            Some(ChainCause::TooManyGenerators),
            "before {back:?}"
        );
    }
}

// A file with as many terms as there may be.
fn full(alloc: Global) -> Result<Vec<u8>, Fail> {
    let mut text = Vec::from_slice(alloc, HEAD.as_bytes())?;
    text.extend_from_slice(b"# 1 = 1 * 1")?;
    for _ in 1..TERMS {
        text.extend_from_slice(b"+1*2")?;
    }
    Ok(text)
}

#[test]
fn too_many_terms(rt: HostRuntime) -> Result<(), Fail> {
    assert_eq!(rt; TERMS, 4_194_304);
    let mut text = full(rt.alloc())?;
    let len = text.len();
    assert_eq!(rt; refusal(rt.alloc(), &text), None);
    for (front, back, cause) in [
        ("+", "1 * 1", ChainCause::TooManyTerms),
        ("# 2 = ", "1 * 1", ChainCause::TooManyTerms),
        ("# 2 = ", "0 * 7", ChainCause::TooManyTerms),
        ("# 2 = 5 ", "x", ChainCause::BadByte),
        ("# 2 = ", "9223372036854775808 * 1", ChainCause::BadNumber),
    ] {
        text.extend_from_slice(front.as_bytes())?;
        let place = text.len() as u64;
        text.extend_from_slice(back.as_bytes())?;
        let found = refusal(rt.alloc(), &text);
        assert_eq!(rt; found, Some((place, cause)), "before {back:?}");
        text.truncate(len);
    }
    Ok(())
}
