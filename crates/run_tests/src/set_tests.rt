//! Whole runs of the tools on sets.
use crate::rows::{Row, all_answer};
use faults::Status;
use std::test::Fail;

const FILES: [(&str, &str); 9] = [
    ("e", ""),
    ("p", "(0)"),
    ("m", "(1073741824)"),
    ("u", "(1)"),
    ("v", "(0) [(5)(5)]"),
    ("q", "(0 0)"),
    ("box", "(0 0 0)"),
    ("point", "[(0)(0)]"),
    ("open", "(0 0) (1"),
];

const DONE: Row = Row {
    words: &["cubunion", "e", "e"],
    ..crate::rows::DONE
};

const NO_FORM: Row = Row {
    words: &["cubcells"],
    status: Status::Words,
    err: "error: words: not a form of cubcells\n",
    ..DONE
};

const BAD_TEXT: Row = Row {
    status: Status::Text,
    ..DONE
};

const UNREAD: Row = Row {
    status: Status::Read,
    err: "error: cannot read absent\n",
    ..DONE
};

const SETS: [Row; 9] = [
    DONE,
    Row {
        words: &["cubnbhd", "p"],
        out: "dimension 1\n(-1)\n(0)\n(1)\n",
        ..DONE
    },
    Row {
        words: &["cubcells", "p"],
        out: "dimension 1\n[(0)(0)]\n(0)\n[(1)(1)]\n",
        ..DONE
    },
    Row {
        words: &["cubunion", "u", "v"],
        out: "dimension 1\n(0)\n(1)\n[(5)(5)]\n",
        ..DONE
    },
    Row {
        words: &["cubinter", "u", "v"],
        out: "dimension 1\n",
        ..DONE
    },
    Row {
        words: &["cubinter", "--", "v", "p"],
        out: "dimension 1\n(0)\n",
        ..DONE
    },
    Row {
        words: &["cubunion", "e", "q"],
        out: "dimension 2\n(0 0)\n",
        ..DONE
    },
    Row {
        words: &["cubinter", "q", "e"],
        out: "dimension 2\n",
        ..DONE
    },
    Row {
        words: &["cubcells", "m"],
        out: "dimension 1\n[(1073741824)(1073741824)]\n(1073741824)\n[(1073741825)(1073741825)]\n",
        ..DONE
    },
];

const REFUSED: [Row; 15] = [
    Row {
        words: &["cubnbhd", "m"],
        status: Status::Limit,
        err: "error: limit: coordinates: 1073741824\n",
        ..DONE
    },
    Row {
        words: &["cubunion", "q", "box"],
        err: "error: box: dimension 3, but 2 before\n",
        ..BAD_TEXT
    },
    Row {
        words: &["cubinter", "box", "q"],
        err: "error: q: dimension 2, but 3 before\n",
        ..BAD_TEXT
    },
    Row {
        words: &["cubnbhd", "point"],
        err: "error: point: byte 0: not a full cube\n",
        ..BAD_TEXT
    },
    Row {
        words: &["cubunion", "open", "absent"],
        err: "error: open: byte 6: not closed\n",
        ..BAD_TEXT
    },
    Row {
        words: &["cubinter", "absent", "open"],
        ..UNREAD
    },
    Row {
        words: &["cubunion", "q", "absent"],
        ..UNREAD
    },
    Row {
        words: &["cubnbhd", "absent"],
        ..UNREAD
    },
    Row {
        words: &["cubcells", "absent"],
        ..UNREAD
    },
    NO_FORM,
    Row {
        words: &["cubcells", "p", "p"],
        ..NO_FORM
    },
    Row {
        words: &["cubnbhd", "p", "p"],
        err: "error: words: not a form of cubnbhd\n",
        ..NO_FORM
    },
    Row {
        words: &["cubunion", "q", "q", "--mod", "2"],
        err: "error: words: not a form of cubunion\n",
        ..NO_FORM
    },
    Row {
        words: &["cubinter", "q"],
        err: "error: words: not a form of cubinter\n",
        ..NO_FORM
    },
    Row {
        words: &["cubinter", "q", "q", "q"],
        err: "error: words: not a form of cubinter\n",
        ..NO_FORM
    },
];

#[test]
fn sets_are_made_and_written(rt: HostRuntime) -> Result<(), Fail> {
    all_answer(&rt, rt.alloc(), &FILES, &SETS)
}

#[test]
fn sets_are_refused_in_order(rt: HostRuntime) -> Result<(), Fail> {
    all_answer(&rt, rt.alloc(), &FILES, &REFUSED)
}
