//! Whole runs in which memory may be wanting. tools/fail_alloc.sh refuses each of their allocations
//! in turn.
use crate::rows::{Row, held, words_of};
use all_tools::run;
use faults::Status;
use outside::{MemFiles, MemSink, OpenGate};
use std::alloc::Global;
use std::process::Abort;
use std::test::Fail;
use std::thread::Threads;

const FILES: [(&str, &str); 5] = [
    ("ring", "(0,0) (1,0) (2,0) (0,1) (2,1) (0,2) (1,2) (2,2)\n"),
    ("middle", "(1,1)\n"),
    ("edge", "(0)"),
    ("open", "(0 0) (1"),
    (
        "plane",
        "chain complex max dimension 2 dimension 0: 1 dimension 1: 1 dimension 2: 1 # 1 = 2 * 1",
    ),
];

const RING: Row = Row {
    words: &["homcubes", "ring"],
    out: "H_0 = Z_2\nH_1 = Z_2\nH_2 = 0\n",
    ..crate::rows::DONE
};

const REPORTS: [Row; 5] = [
    RING,
    Row {
        words: &["homcubes", "middle", "ring", "--mod", "3", "--cycles"],
        out: "H_0 = 0\nH_1 = 0\nH_2 = Z_3\nz_2_1 = 1 * [(1 1)(2 2)]\n",
        ..RING
    },
    Row {
        words: &["cubinter", "ring", "middle"],
        out: "dimension 2\n",
        ..RING
    },
    Row {
        words: &["cubcells", "edge"],
        out: "dimension 1\n[(0)(0)]\n(0)\n[(1)(1)]\n",
        ..RING
    },
    Row {
        words: &["homchain", "plane", "--cycles"],
        out: "H_0 = Z_2\nz_0_1 = 1 * #1\nH_1 = Z_2\nz_1_1 = 1 * #1\nH_2 = Z_2\nz_2_1 = 1 * #1\n",
        ..RING
    },
];

const REFUSALS: [Row; 4] = [
    Row {
        words: &["homcubes", "open"],
        status: Status::Text,
        out: "",
        err: "error: open: byte 6: not closed\n",
        ..RING
    },
    Row {
        words: &["cubunion", "ring", "edge"],
        status: Status::Text,
        out: "",
        err: "error: edge: dimension 1, but 2 before\n",
        ..RING
    },
    Row {
        words: &["homchain", "ring"],
        status: Status::Text,
        out: "",
        err: "error: ring: byte 0: bad byte\n",
        ..RING
    },
    Row {
        words: &["homcubes", "ring", "--mod", "4"],
        status: Status::Words,
        out: "",
        err: "error: words: not a form of homcubes\n",
        ..RING
    },
];

// The right answer; or want of memory and nothing on `out`. A sink in memory counts a write for
// which it has none itself.
fn answers_or_wants_memory<R: Threads + Abort>(
    rt: &R,
    alloc: Global,
    row: &Row,
) -> Result<(), Fail> {
    let words = words_of(alloc, row.words)?;
    let mut files = MemFiles::of(alloc, held(alloc, &FILES)?, Vec::new(alloc));
    let mut out = MemSink::of(alloc, Vec::new(alloc), 1000);
    let mut err = MemSink::of(alloc, Vec::new(alloc), 1000);
    let status = run(rt, alloc, &words, &mut files, &mut out, &mut err, &OpenGate);
    if status == row.status {
        assert_eq!(rt; out.bytes(), row.out.as_bytes());
        assert!(rt; err.refused() > 0 || err.bytes() == row.err.as_bytes());
        return Ok(());
    }
    assert!(rt; out.bytes().is_empty());
    if status == Status::NoMemory {
        assert!(rt; err.refused() > 0 || err.bytes() == "error: out of memory\n".as_bytes());
        return Ok(());
    }
    assert!(rt;
        status == Status::Write && out.refused() > 0,
        "{:?}",
        status
    );
    Ok(())
}

#[test]
fn want_of_memory_writes_no_report(rt: HostRuntime) -> Result<(), Fail> {
    for row in &REPORTS {
        answers_or_wants_memory(&rt, rt.alloc(), row)?;
    }
    Ok(())
}

#[test]
fn want_of_memory_turns_no_refusal(rt: HostRuntime) -> Result<(), Fail> {
    for row in &REFUSALS {
        answers_or_wants_memory(&rt, rt.alloc(), row)?;
    }
    Ok(())
}
