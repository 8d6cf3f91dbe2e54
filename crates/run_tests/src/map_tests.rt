//! Whole runs of the tools on maps: their values, and the matrices that they induce.
use crate::rows::{DONE, Row, all_answer};
use crate::texts::{LINE, LONG, LONG_OUTER, MAP, OUTER};
use faults::Status;
use std::test::Fail;

const FILES: [(&str, &str); 20] = [
    ("p", "(0)"),
    ("two", "(0) (1)"),
    ("apart", "(0) (5)"),
    ("q", "(0 0)"),
    ("x", LINE),
    ("y", LONG),
    ("double", MAP),
    ("torn", "(0) -> (0)  (1) -> (5)"),
    ("one", "(0) -> (0)"),
    ("far", "(0) -> {(0) (7) (9)}"),
    ("split", "(0) -> {(0) (2)}"),
    ("three", "(0) (1) (2)"),
    ("a", OUTER),
    ("b", LONG_OUTER),
    ("none", ""),
    ("same", "(0) -> (0)  (1) -> (1)"),
    ("gap", "(0) (2)"),
    ("away", "(1)"),
    ("shift", "(0) -> (1)"),
    ("onto", "(0) -> (0)  (2) -> (0)"),
];

const REFUSED: Row = Row {
    status: Status::MapRefused,
    ..DONE
};

const ROWS: [Row; 9] = [
    Row {
        words: &["chkmvmap", "double", "x", "y"],
        out: "acyclic values: 9\n",
        ..DONE
    },
    Row {
        words: &["chkmvmap", "--mod=3", "double", "x", "y"],
        out: "acyclic values: 9\n",
        ..DONE
    },
    Row {
        words: &["chkmvmap", "torn", "two", "apart"],
        err: "error: map: value at [(1)(1)] is empty\n",
        ..REFUSED
    },
    Row {
        words: &["chkmvmap", "one", "two", "two"],
        err: "error: map: no value at (1)\n",
        ..REFUSED
    },
    Row {
        words: &["chkmvmap", "far", "p", "two"],
        err: "error: map: (0) -> (7) leaves the range\n",
        ..REFUSED
    },
    // Two pieces: their vertices differ by no boundary, as the function tells that is 1 on the
    // second piece alone.
    Row {
        words: &["chkmvmap", "split", "p", "three"],
        err: "error: map: value at [(0)(0)] is not acyclic in degree 0: \
              cycle 1 * [(0)(0)] + 1 * [(2)(2)], cocycle 1 * [(2)(2)] + 1 * [(3)(3)]\n",
        ..REFUSED
    },
    Row {
        words: &["chkmvmap", "split", "p", "three", "--mod", "3"],
        err: "error: map: value at [(0)(0)] is not acyclic in degree 0: \
              cycle 2 * [(0)(0)] + 1 * [(2)(2)], cocycle 1 * [(2)(2)] + 1 * [(3)(3)]\n",
        ..REFUSED
    },
    Row {
        words: &["chkmvmap", "one", "p", "q"],
        status: Status::Text,
        err: "error: q: dimension 2, but 1 before\n",
        ..DONE
    },
    Row {
        words: &["chkmvmap", "one", "p"],
        status: Status::Words,
        err: "error: words: not a form of chkmvmap\n",
        ..DONE
    },
];

#[test]
fn values_of_maps_are_tested(rt: HostRuntime) -> Result<(), Fail> {
    all_answer(&rt, rt.alloc(), &FILES, &ROWS)
}

// The map that doubles, from a line relative to its outer segments: the path through the middle
// goes once through the middle of the range.
const INDUCED: [Row; 5] = [
    Row {
        words: &[
            "homcubes", "--map", "double", "x", "a", "y", "b", "--matrix",
        ],
        out: "domain\nH_0 = 0\nH_1 = Z_2\nz_1_1 = 1 * [(-1)(0)] + 1 * [(0)(1)]\n\
              range\nH_0 = 0\nH_1 = Z_2\nz_1_1 = 1 * [(-1)(0)] + 1 * [(0)(1)]\n\
              map\nF_0 rank 0\nF_1 rank 1\n  1\n",
        ..DONE
    },
    Row {
        words: &["homcubes", "x", "a", "y", "b", "--map=double", "--mod", "3"],
        out: "domain\nH_0 = 0\nH_1 = Z_3\nrange\nH_0 = 0\nH_1 = Z_3\nmap\nF_0 rank 0\nF_1 rank 1\n",
        ..DONE
    },
    Row {
        words: &["homcubes", "--map", "same", "two", "p", "two", "none"],
        err: "error: map: (0) -> (0) leaves the range's subset\n",
        ..REFUSED
    },
    Row {
        words: &["homcubes", "--map", "double", "x", "a", "y"],
        status: Status::Words,
        err: "error: words: not a form of homcubes\n",
        ..DONE
    },
    Row {
        words: &["homcubes", "x", "a", "--matrix"],
        status: Status::Words,
        err: "error: words: not a form of homcubes\n",
        ..DONE
    },
];

#[test]
fn matrices_of_maps_are_told(rt: HostRuntime) -> Result<(), Fail> {
    all_answer(&rt, rt.alloc(), &FILES, &INDUCED)
}

// The same map on the line and its subset with their inclusion in the range and its subset; a set
// that is not in the range, a subset that is not in the range's, and inclusions that send a class to
// 0 or miss one.
const INDEXED: [Row; 7] = [
    Row {
        words: &[
            "homcubes", "--map", "double", "x", "a", "y", "b", "--index", "--matrix",
        ],
        out: "domain\nH_0 = 0\nH_1 = Z_2\nz_1_1 = 1 * [(-1)(0)] + 1 * [(0)(1)]\n\
              range\nH_0 = 0\nH_1 = Z_2\nz_1_1 = 1 * [(-1)(0)] + 1 * [(0)(1)]\n\
              map\nF_0 rank 0\nF_1 rank 1\n  1\n\
              index\nN_0 rank 0\nL_0 = 0\nN_1 rank 1\n  1\nL_1 = 1\n  1\n",
        ..DONE
    },
    Row {
        words: &[
            "homcubes",
            "--index",
            "x",
            "a",
            "y",
            "b",
            "--map=double",
            "--mod=3",
        ],
        out: "domain\nH_0 = 0\nH_1 = Z_3\nrange\nH_0 = 0\nH_1 = Z_3\nmap\nF_0 rank 0\nF_1 rank 1\n\
              index\nN_0 rank 0\nL_0 = 0\nN_1 rank 1\nL_1 = 1\n",
        ..DONE
    },
    Row {
        words: &[
            "homcubes", "--map", "shift", "p", "none", "away", "none", "--index",
        ],
        err: "error: index: (0) is not in the range\n",
        ..REFUSED
    },
    Row {
        words: &[
            "homcubes", "--map", "shift", "p", "p", "two", "away", "--index",
        ],
        err: "error: index: (0) is not in the range's subset\n",
        ..REFUSED
    },
    Row {
        words: &[
            "homcubes", "--map", "onto", "gap", "none", "three", "none", "--index",
        ],
        err: "error: index: degree 0: killed: 1 * [(1)(1)] + 1 * [(3)(3)]\n",
        ..REFUSED
    },
    Row {
        words: &[
            "homcubes", "--map", "one", "p", "none", "gap", "none", "--index",
        ],
        err: "error: index: degree 0: missed: 1 * [(2)(2)] + 1 * [(3)(3)]\n",
        ..REFUSED
    },
    Row {
        words: &["homcubes", "x", "a", "--index"],
        status: Status::Words,
        err: "error: words: not a form of homcubes\n",
        ..DONE
    },
];

#[test]
fn index_matrices_are_told(rt: HostRuntime) -> Result<(), Fail> {
    all_answer(&rt, rt.alloc(), &FILES, &INDEXED)
}
