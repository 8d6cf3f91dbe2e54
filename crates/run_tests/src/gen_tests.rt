//! Whole runs of the generator.
use crate::rows::{DONE, Row, all_answer};
use faults::Status;
use std::test::Fail;

const NO_FORM: Row = Row {
    status: Status::Words,
    err: "error: words: not a form of gen\n",
    ..DONE
};

const ROWS: [Row; 8] = [
    Row {
        words: &["gen", "holes", "1"],
        out: "holes 1: 8 cubes, 48 cells\nH_0 = Z_2\nH_1 = Z_2\nH_2 = 0\n",
        ..DONE
    },
    Row {
        words: &["gen", "--mod", "3", "holes", "2"],
        out: "holes 2: 21 cubes, 117 cells\nH_0 = Z_3\nH_1 = Z_3^4\nH_2 = 0\n",
        ..DONE
    },
    Row {
        words: &["gen", "holes", "1", "--set"],
        out: "dimension 2\n(0 0)\n(0 1)\n(0 2)\n(1 0)\n(1 2)\n(2 0)\n(2 1)\n(2 2)\n",
        ..DONE
    },
    Row {
        words: &["gen", "holes", "1", "--set", "--mod", "2"],
        ..NO_FORM
    },
    Row {
        words: &["gen", "holes", "0"],
        ..NO_FORM
    },
    Row {
        words: &["gen", "holes", "528"],
        ..NO_FORM
    },
    Row {
        words: &["gen", "holes", "01"],
        ..NO_FORM
    },
    Row {
        words: &["gen", "hole", "1"],
        ..NO_FORM
    },
];

#[test]
fn squares_with_holes_are_made(rt: HostRuntime) -> Result<(), Fail> {
    all_answer(&rt, rt.alloc(), &[], &ROWS)
}
