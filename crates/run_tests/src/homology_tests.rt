//! Whole runs of the tool on sets and pairs.
use crate::rows::{Row, all_answer, answers};
use faults::Status;
use std::test::Fail;

const FILES: [(&str, &str); 24] = [
    ("e", ""),
    ("q", "(0 0)"),
    ("-", "(0 0)"),
    ("--mod", "(0 0)"),
    ("d", "(0 0) (1 1)"),
    (
        "ring.txt",
        "(0,0) (1,0) (2,0) (0,1) (2,1) (0,2) (1,2) (2,2)\n",
    ),
    (
        "ring",
        "; annulus, as sampled\ndimension 2\n(0,0) (1,0) (2,0)\n\
         (0,1)       (2,1)\n(0,2) (1,2) (2,2)\n",
    ),
    (
        "box",
        "(0 0 0) (0 0 1) (0 0 2) (0 1 0) (0 1 1) (0 1 2) (0 2 0) (0 2 1) (0 2 2) \
         (1 0 0) (1 0 1) (1 0 2) (1 1 0) (1 1 2) (1 2 0) (1 2 1) (1 2 2) \
         (2 0 0) (2 0 1) (2 0 2) (2 1 0) (2 1 1) (2 1 2) (2 2 0) (2 2 1) (2 2 2)",
    ),
    ("x", "(0)"),
    ("a", "[(0)(0)] [(1)(1)]"),
    ("v", "[(0)(0)]"),
    ("s", "[(0 0)(1 0)] [(0 0)(0 1)] [(0 1)(1 1)] [(1 0)(1 1)]"),
    ("flat", "dimension 2"),
    ("open", "(0 0) (1"),
    ("long", "(0 0 0 0 0)"),
    ("far", "(1073741825)"),
    ("last", "(1073741824)"),
    ("wide", "[(0 0)(2 0)]"),
    ("mixed", "(0)(0 0)"),
    ("stray", "(0 x)"),
    ("zero", "dimension 0"),
    ("second", "x)\n)"),
    ("half", "[(0 0)(1 "),
    ("two", "(5) (0)"),
];

const DONE: Row = Row {
    words: &["homcubes", "q"],
    out: "H_0 = Z_2\nH_1 = 0\nH_2 = 0\n",
    ..crate::rows::DONE
};

const NO_FORM: Row = Row {
    status: Status::Words,
    out: "",
    err: "error: words: not a form of homcubes\n",
    ..DONE
};

const NO_TOOL: Row = Row {
    err: "error: words: no tool of that name\n",
    ..NO_FORM
};

const BAD_TEXT: Row = Row {
    status: Status::Text,
    out: "",
    ..DONE
};

const UNREAD: Row = Row {
    status: Status::Read,
    out: "",
    err: "error: cannot read q\n",
    ..DONE
};

const NO_HOMOLOGY: Row = Row {
    out: "H_0 = 0\nH_1 = 0\n",
    ..DONE
};

const SETS: [Row; 12] = [
    DONE,
    Row {
        words: &["homcubes", "e"],
        out: "H_0 = 0\n",
        ..DONE
    },
    Row {
        words: &["homcubes", "-"],
        ..DONE
    },
    Row {
        words: &["homcubes", "d"],
        ..DONE
    },
    Row {
        words: &["homcubes", "ring.txt"],
        out: "H_0 = Z_2\nH_1 = Z_2\nH_2 = 0\n",
        ..DONE
    },
    Row {
        words: &["homcubes", "ring"],
        out: "H_0 = Z_2\nH_1 = Z_2\nH_2 = 0\n",
        ..DONE
    },
    Row {
        words: &["homcubes", "box"],
        out: "H_0 = Z_2\nH_1 = 0\nH_2 = Z_2\nH_3 = 0\n",
        ..DONE
    },
    Row {
        words: &["homcubes", "last"],
        out: "H_0 = Z_2\nH_1 = 0\n",
        ..DONE
    },
    Row {
        words: &["homcubes", "flat"],
        out: "H_0 = 0\nH_1 = 0\nH_2 = 0\n",
        ..DONE
    },
    Row {
        words: &["homcubes", "--", "--mod"],
        ..DONE
    },
    Row {
        words: &["homcubes", "e", "q"],
        out: "H_0 = 0\nH_1 = 0\nH_2 = 0\n",
        ..DONE
    },
    Row {
        words: &["homcubes", "q", "e"],
        ..DONE
    },
];

const PAIRS_AND_MODULI: [Row; 9] = [
    Row {
        words: &["homcubes", "x", "a"],
        out: "H_0 = 0\nH_1 = Z_2\n",
        ..DONE
    },
    Row {
        words: &["homcubes", "x", "v"],
        ..NO_HOMOLOGY
    },
    Row {
        words: &["homcubes", "x", "x"],
        ..NO_HOMOLOGY
    },
    Row {
        words: &["homcubes", "q", "ring"],
        out: "H_0 = 0\nH_1 = 0\nH_2 = 0\n",
        ..DONE
    },
    Row {
        words: &["homcubes", "ring.txt", "--mod", "47"],
        out: "H_0 = Z_47\nH_1 = Z_47\nH_2 = 0\n",
        ..DONE
    },
    Row {
        words: &["homcubes", "--mod=3", "q"],
        out: "H_0 = Z_3\nH_1 = 0\nH_2 = 0\n",
        ..DONE
    },
    Row {
        words: &["homcubes", "s", "--mod", "3"],
        out: "H_0 = Z_3\nH_1 = Z_3\nH_2 = 0\n",
        ..DONE
    },
    Row {
        words: &["homcubes", "--mod", "5", "--", "q"],
        out: "H_0 = Z_5\nH_1 = 0\nH_2 = 0\n",
        ..DONE
    },
    Row {
        words: &["homcubes", "box", "--mod=31"],
        out: "H_0 = Z_31\nH_1 = 0\nH_2 = Z_31\nH_3 = 0\n",
        ..DONE
    },
];

// In degree 0 any point of a piece would be right; these are the ones that are left today.
const WITH_CYCLES_OR_COUNTS: [Row; 10] = [
    Row {
        words: &["homcubes", "x", "a", "--cycles"],
        out: "H_0 = 0\nH_1 = Z_2\nz_1_1 = 1 * [(0)(1)]\n",
        ..DONE
    },
    Row {
        words: &["homcubes", "--cycles", "x", "v"],
        ..NO_HOMOLOGY
    },
    Row {
        words: &["homcubes", "e", "--cycles"],
        out: "H_0 = 0\n",
        ..DONE
    },
    Row {
        words: &["homcubes", "--cycles", "q"],
        out: "H_0 = Z_2\nz_0_1 = 1 * [(0 0)(0 0)]\nH_1 = 0\nH_2 = 0\n",
        ..DONE
    },
    Row {
        words: &["homcubes", "s", "--mod", "3", "--cycles"],
        out: "H_0 = Z_3\nz_0_1 = 1 * [(0 0)(0 0)]\nH_1 = Z_3\nz_1_1 = 1 * [(0 0)(0 1)] \
              + 2 * [(0 0)(1 0)] + 1 * [(0 1)(1 1)] + 2 * [(1 0)(1 1)]\nH_2 = 0\n",
        ..DONE
    },
    Row {
        words: &["homcubes", "s", "--mod", "3"],
        out: "H_0 = Z_3\nH_1 = Z_3\nH_2 = 0\n",
        ..DONE
    },
    Row {
        words: &["homcubes", "two", "--cycles"],
        out: "H_0 = Z_2^2\nz_0_1 = 1 * [(1)(1)]\nz_0_2 = 1 * [(6)(6)]\nH_1 = 0\n",
        ..DONE
    },
    Row {
        words: &["homcubes", "q", "--stats"],
        out: "H_0 = Z_2\nH_1 = 0\nH_2 = 0\ncells 9\ngrown 0\nleft 1\n",
        ..DONE
    },
    Row {
        words: &["homcubes", "--stats", "x", "v"],
        out: "H_0 = 0\nH_1 = 0\ncells 2\ngrown 1\nleft 0\n",
        ..DONE
    },
    Row {
        words: &["homcubes", "x", "a", "--stats", "--cycles"],
        out: "H_0 = 0\nH_1 = Z_2\nz_1_1 = 1 * [(0)(1)]\ncells 1\ngrown 0\nleft 1\n",
        ..DONE
    },
];

const TEXTS: [Row; 10] = [
    Row {
        words: &["homcubes", "open"],
        err: "error: open: byte 6: not closed\n",
        ..BAD_TEXT
    },
    Row {
        words: &["homcubes", "long"],
        err: "error: long: byte 0: dimension too large\n",
        ..BAD_TEXT
    },
    Row {
        words: &["homcubes", "far"],
        err: "error: far: byte 1: coordinate too large\n",
        ..BAD_TEXT
    },
    Row {
        words: &["homcubes", "wide"],
        err: "error: wide: byte 0: not an elementary cube\n",
        ..BAD_TEXT
    },
    Row {
        words: &["homcubes", "mixed"],
        err: "error: mixed: byte 3: mixed dimension\n",
        ..BAD_TEXT
    },
    Row {
        words: &["homcubes", "stray"],
        err: "error: stray: byte 3: bad byte\n",
        ..BAD_TEXT
    },
    Row {
        words: &["homcubes", "zero"],
        err: "error: zero: byte 10: bad number\n",
        ..BAD_TEXT
    },
    Row {
        words: &["homcubes", "half"],
        err: "error: half: byte 0: not closed\n",
        ..BAD_TEXT
    },
    Row {
        words: &["homcubes", "second", "absent"],
        err: "error: second: byte 3: bad byte\n",
        ..BAD_TEXT
    },
    Row {
        words: &["homcubes", "q", "box"],
        err: "error: box: dimension 3, but 2 before\n",
        ..BAD_TEXT
    },
];

const FAULTS: [Row; 7] = [
    Row {
        words: &["homcubes", "absent"],
        err: "error: cannot read absent\n",
        ..UNREAD
    },
    Row {
        words: &["homcubes", "q", "absent"],
        err: "error: cannot read absent\n",
        ..UNREAD
    },
    Row {
        words: &["homcubes", "absent", "second"],
        err: "error: cannot read absent\n",
        ..UNREAD
    },
    Row {
        failing_reads: &[2],
        ..UNREAD
    },
    Row {
        words: &["homcubes", "q", "q"],
        failing_reads: &[4],
        ..UNREAD
    },
    Row {
        failing_writes: &[2],
        most: 5,
        status: Status::Write,
        out: "H_0 =",
        err: "error: cannot write standard output\n",
        ..DONE
    },
    Row {
        failing_writes: &[1],
        status: Status::Write,
        out: "",
        err: "error: cannot write standard output\n",
        ..DONE
    },
];

const NO_FORMS: [&[&str]; 25] = [
    &["homcubes"],
    &["homcubes", ""],
    &["homcubes", "-q"],
    &["homcubes", "q", "e", "e"],
    &["homcubes", "q", "--mod", "4"],
    &["homcubes", "q", "--mod", "03"],
    &["homcubes", "q", "--mod", "49"],
    &["homcubes", "q", "--mod", "97"],
    &["homcubes", "q", "--mod", "1"],
    &["homcubes", "q", "--mod", "+2"],
    &["homcubes", "q", "--mod", "-2"],
    &["homcubes", "q", "--mod", "--", "2"],
    &["homcubes", "q", "--mod"],
    &["homcubes", "q", "--mod="],
    &["homcubes", "q", "-mod", "2"],
    &["homcubes", "q", "--mod", "2", "--mod", "2"],
    &["homcubes", "q", "--mod=2", "--mod", "3"],
    &["homcubes", "q", "--", "--mod", "2"],
    &["homcubes", "q", "--cycles", "--cycles"],
    &["homcubes", "--cycles", "q", "--mod", "3", "--cycles"],
    &["homcubes", "q", "--cycles="],
    &["homcubes", "q", "--cycles=1"],
    &["homcubes", "q", "--matrix"],
    &["homcubes", "--help"],
    &["homcubes", "--version"],
];

const NO_TOOLS: [&[&str]; 5] = [
    &[],
    &["cubdiff", "q", "q"],
    &["homchains", "q"],
    &["--help"],
    &["homcubesq", "q"],
];

#[test]
fn sets_have_their_homology(rt: HostRuntime) -> Result<(), Fail> {
    all_answer(&rt, rt.alloc(), &FILES, &SETS)
}

#[test]
fn pairs_and_moduli_have_their_homology(rt: HostRuntime) -> Result<(), Fail> {
    all_answer(&rt, rt.alloc(), &FILES, &PAIRS_AND_MODULI)
}

#[test]
fn cycles_and_counts_are_printed_where_asked(rt: HostRuntime) -> Result<(), Fail> {
    all_answer(&rt, rt.alloc(), &FILES, &WITH_CYCLES_OR_COUNTS)
}

#[test]
fn texts_are_refused_at_their_places(rt: HostRuntime) -> Result<(), Fail> {
    all_answer(&rt, rt.alloc(), &FILES, &TEXTS)
}

#[test]
fn failed_reads_and_writes_are_told(rt: HostRuntime) -> Result<(), Fail> {
    all_answer(&rt, rt.alloc(), &FILES, &FAULTS)
}

#[test]
fn words_of_no_form_are_refused(rt: HostRuntime) -> Result<(), Fail> {
    for words in &NO_FORMS {
        answers(&rt, rt.alloc(), &FILES, &Row { words, ..NO_FORM })?;
    }
    for words in &NO_TOOLS {
        answers(&rt, rt.alloc(), &FILES, &Row { words, ..NO_TOOL })?;
    }
    Ok(())
}
