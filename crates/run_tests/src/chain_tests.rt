//! Whole runs of the tool on chain files.
use crate::rows::{Row, all_answer};
use faults::Status;
use std::test::Fail;

const FILES: [(&str, &str); 14] = [
    // The projective plane.
    (
        "c",
        "chain complex\nmax dimension 2\ndimension 0: 1\n\
         dimension 1: 1\n# 1 = 0\ndimension 2: 1\n# 1 = 2 * 1\n",
    ),
    // Each boundary is the generator below.
    (
        "n",
        "chain complex\nmax dimension 2\ndimension 0: 1\n\
         dimension 1: 1\n# 1 = 1 * 1\ndimension 2: 1\n# 1 = 1 * 1\n",
    ),
    (
        "none",
        "chain complex max dimension 1 dimension 0: 0 dimension 1: 0",
    ),
    // The cycles are the multiples of twice the first generator of degree 1 and the second.
    (
        "round",
        "chain complex max dimension 1 dimension 0: 2 dimension 1: 3 \
         # 1 = -1 * 1 + 1 * 2 # 2 = 2 * 1 + -2 * 2 # 3 = 1 * 2",
    ),
    // A degree without generators between two.
    (
        "gap",
        "chain complex max dimension 2 dimension 0: 1 dimension 1: 0 dimension 2: 2",
    ),
    (
        "seven",
        "chain complex max dimension 2 dimension 0: 3 dimension 1: 2 # 2 = 3 * 3 \
         dimension 2: 1 # 1 = 2 * 2",
    ),
    ("empty", ""),
    ("word", "chain complexes"),
    ("top", "chain complex max dimension 64"),
    ("open", "chain complex max dimension 1 dimension 0: 1"),
    (
        "unknown",
        "chain complex max dimension 1 dimension 0: 1 dimension 1: 1 # 2 = 0",
    ),
    (
        "again",
        "chain complex max dimension 1 dimension 0: 1 dimension 1: 1 # 1 = 0 # 1 = 0",
    ),
    (
        "many",
        "chain complex max dimension 1 dimension 0: 1048576 dimension 1: 1",
    ),
    ("most", "chain complex max dimension 0 dimension 0: 1048576"),
];

const DONE: Row = Row {
    words: &["homchain", "c"],
    out: "H_0 = Z_2\nH_1 = Z_2\nH_2 = Z_2\n",
    ..crate::rows::DONE
};

const BAD_TEXT: Row = Row {
    status: Status::Text,
    out: "",
    ..DONE
};

const NO_FORM: Row = Row {
    status: Status::Words,
    out: "",
    err: "error: words: not a form of homchain\n",
    ..DONE
};

const COMPLEXES: [Row; 12] = [
    DONE,
    Row {
        words: &["homchain", "--mod", "3", "c"],
        out: "H_0 = Z_3\nH_1 = 0\nH_2 = 0\n",
        ..DONE
    },
    Row {
        words: &["homchain", "c", "--cycles"],
        out: "H_0 = Z_2\nz_0_1 = 1 * #1\nH_1 = Z_2\nz_1_1 = 1 * #1\nH_2 = Z_2\nz_2_1 = 1 * #1\n",
        ..DONE
    },
    Row {
        words: &["homchain", "c", "--cycles", "--mod=3"],
        out: "H_0 = Z_3\nz_0_1 = 1 * #1\nH_1 = 0\nH_2 = 0\n",
        ..DONE
    },
    Row {
        words: &["homchain", "none"],
        out: "H_0 = 0\nH_1 = 0\n",
        ..DONE
    },
    Row {
        words: &["homchain", "none", "--cycles"],
        out: "H_0 = 0\nH_1 = 0\n",
        ..DONE
    },
    Row {
        words: &["homchain", "round", "--mod", "5"],
        out: "H_0 = 0\nH_1 = Z_5\n",
        ..DONE
    },
    Row {
        words: &["homchain", "round", "--mod", "5", "--cycles"],
        out: "H_0 = 0\nH_1 = Z_5\nz_1_1 = 1 * #1 + 3 * #2\n",
        ..DONE
    },
    Row {
        words: &["homchain", "gap", "--cycles"],
        out: "H_0 = Z_2\nz_0_1 = 1 * #1\nH_1 = 0\nH_2 = Z_2^2\nz_2_1 = 1 * #1\nz_2_2 = 1 * #2\n",
        ..DONE
    },
    Row {
        words: &["homchain", "seven", "--mod", "2"],
        out: "H_0 = Z_2^2\nH_1 = Z_2\nH_2 = Z_2\n",
        ..DONE
    },
    Row {
        words: &["homchain", "seven", "--mod", "3"],
        out: "H_0 = Z_3^3\nH_1 = Z_3\nH_2 = 0\n",
        ..DONE
    },
    Row {
        words: &["homchain", "most"],
        out: "H_0 = Z_2^1048576\n",
        ..DONE
    },
];

const REFUSED: [Row; 20] = [
    Row {
        words: &["homchain", "n"],
        err: "error: n: dimension 2: # 1: boundary of boundary has 1 * 1\n",
        ..BAD_TEXT
    },
    Row {
        words: &["homchain", "seven", "--mod", "7", "--cycles"],
        err: "error: seven: dimension 2: # 1: boundary of boundary has 6 * 3\n",
        ..BAD_TEXT
    },
    Row {
        words: &["homchain", "empty"],
        err: "error: empty: byte 0: not closed\n",
        ..BAD_TEXT
    },
    Row {
        words: &["homchain", "word"],
        err: "error: word: byte 6: bad byte\n",
        ..BAD_TEXT
    },
    Row {
        words: &["homchain", "top"],
        err: "error: top: byte 28: bad number\n",
        ..BAD_TEXT
    },
    Row {
        words: &["homchain", "open"],
        err: "error: open: byte 44: not closed\n",
        ..BAD_TEXT
    },
    Row {
        words: &["homchain", "unknown"],
        err: "error: unknown: byte 62: unknown generator\n",
        ..BAD_TEXT
    },
    Row {
        words: &["homchain", "again"],
        err: "error: again: byte 70: repeated generator\n",
        ..BAD_TEXT
    },
    Row {
        words: &["homchain", "many"],
        status: Status::Limit,
        out: "",
        err: "error: limit: generators: 1048576\n",
        ..DONE
    },
    Row {
        words: &["homchain", "absent"],
        status: Status::Read,
        out: "",
        err: "error: cannot read absent\n",
        ..DONE
    },
    Row {
        words: &["homchain"],
        ..NO_FORM
    },
    Row {
        words: &["homchain", "c", "c"],
        ..NO_FORM
    },
    Row {
        words: &["homchain", ""],
        ..NO_FORM
    },
    Row {
        words: &["homchain", "c", "--mod", "4"],
        ..NO_FORM
    },
    Row {
        words: &["homchain", "c", "--mod"],
        ..NO_FORM
    },
    Row {
        words: &["homchain", "c", "--cycles", "--cycles"],
        ..NO_FORM
    },
    Row {
        words: &["homchain", "c", "--cycles=1"],
        ..NO_FORM
    },
    Row {
        words: &["homchain", "c", "--matrix"],
        ..NO_FORM
    },
    Row {
        words: &["homchain", "-c"],
        ..NO_FORM
    },
    Row {
        words: &["homchain", "--mod", "2", "--mod", "3", "c"],
        ..NO_FORM
    },
];

#[test]
fn chain_files_have_their_homology(rt: HostRuntime) -> Result<(), Fail> {
    all_answer(&rt, rt.alloc(), &FILES, &COMPLEXES)
}

#[test]
fn chain_files_are_refused_in_order(rt: HostRuntime) -> Result<(), Fail> {
    all_answer(&rt, rt.alloc(), &FILES, &REFUSED)
}
