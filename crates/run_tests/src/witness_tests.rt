//! Runs that write a witness file, and what it holds then; and runs that test one.
use crate::rows::{DONE, Row, ends_over, held, words_of};
use crate::texts::{LINE, LONG, LONG_OUTER, MAP, OF_EDGE, OUTER};
use all_tools::run;
use faults::Status;
use outside::{Files, MemFiles, MemSink, OpenGate};
use std::alloc::Global;
use std::process::Abort;
use std::test::Fail;
use std::thread::Threads;

const FILES: [(&str, &str); 5] = [
    ("x", "(0)"),
    ("a", "[(0)(0)] [(1)(1)]"),
    ("w", "as it was"),
    ("right", OF_EDGE),
    ("wrong", WITHOUT_DUAL),
];

// The witness of the edge modulo 3.
const BY_THREE: &str = "chomp witness 1\nmod 3\nclaim pair\n\
     pair domain\nz 1: 1*2\nc 1: 1*2\nh 2:\nend\n";

// That modulo 2, but for the cocycle, which is 0 on the cycle.
const WITHOUT_DUAL: &str = "chomp witness 1\nmod 2\nclaim pair\n\
     pair domain\nz 1: 1*2\nc 1:\nh 2:\nend\n";

// What a run has to answer, the file of its witness and what that holds.
const ROWS: [(Row, &str, &str); 7] = [
    (
        Row {
            words: &["homcubes", "x", "a", "--witness", "w"],
            out: "H_0 = 0\nH_1 = Z_2\n",
            ..DONE
        },
        "w",
        OF_EDGE,
    ),
    (
        Row {
            words: &["homcubes", "x", "a", "--mod", "3", "--witness=new"],
            out: "H_0 = 0\nH_1 = Z_3\n",
            ..DONE
        },
        "new",
        BY_THREE,
    ),
    // Inputs are read before it is written.
    (
        Row {
            words: &["homcubes", "--witness", "x", "x", "a"],
            out: "H_0 = 0\nH_1 = Z_2\n",
            ..DONE
        },
        "x",
        OF_EDGE,
    ),
    // The fifth call on files is the write, and it fails: nothing is printed.
    (
        Row {
            words: &["homcubes", "x", "a", "--witness", "w"],
            failing_reads: &[5],
            status: Status::Write,
            err: "error: cannot write w\n",
            ..DONE
        },
        "w",
        "as it was",
    ),
    // The text is not printed, and the file is whole.
    (
        Row {
            words: &["homcubes", "x", "a", "--witness", "w"],
            failing_writes: &[1],
            status: Status::Write,
            err: "error: cannot write standard output\n",
            ..DONE
        },
        "w",
        OF_EDGE,
    ),
    // A witness is tested, and stays.
    (
        Row {
            words: &["replay", "right", "x", "a"],
            out: "accepted\nH_0 = 0\nH_1 = Z_2\n",
            ..DONE
        },
        "right",
        OF_EDGE,
    ),
    (
        Row {
            words: &["replay", "wrong", "x", "a"],
            status: Status::Witness,
            err: "error: wrong: line 6: Dual\n",
            ..DONE
        },
        "wrong",
        WITHOUT_DUAL,
    ),
];

#[test]
fn witness_files_are_written_and_tested(rt: HostRuntime) -> Result<(), Fail> {
    for (row, name, text) in &ROWS {
        writes(&rt, rt.alloc(), row, name, text)?;
    }
    Ok(())
}

const PAIRS: [(&str, &str); 5] = [
    ("map", MAP),
    ("line", LINE),
    ("outer", OUTER),
    ("long", LONG),
    ("long outer", LONG_OUTER),
];

const REPLAYED: [&str; 7] = ["replay", "w", "map", "line", "outer", "long", "long outer"];

// A modulus, the report on the map modulo it, and what is told of its witness.
const MODULI: [(&str, &str, &str); 2] = [
    (
        "2",
        "domain\nH_0 = 0\nH_1 = Z_2\nrange\nH_0 = 0\nH_1 = Z_2\nmap\nF_0 rank 0\nF_1 rank 1\n",
        "accepted\ndomain\nH_0 = 0\nH_1 = Z_2\nrange\nH_0 = 0\nH_1 = Z_2\n\
         map\nF_0 rank 0\nF_1 rank 1\n",
    ),
    (
        "5",
        "domain\nH_0 = 0\nH_1 = Z_5\nrange\nH_0 = 0\nH_1 = Z_5\nmap\nF_0 rank 0\nF_1 rank 1\n",
        "accepted\ndomain\nH_0 = 0\nH_1 = Z_5\nrange\nH_0 = 0\nH_1 = Z_5\n\
         map\nF_0 rank 0\nF_1 rank 1\n",
    ),
];

#[test]
fn written_witnesses_are_accepted(rt: HostRuntime) -> Result<(), Fail> {
    for (modulus, report, told) in &MODULI {
        writes_and_replays(&rt, rt.alloc(), modulus, report, told)?;
    }
    Ok(())
}

// A witness of the map is written, and then tested over the same files.
fn writes_and_replays<R: Threads + Abort>(
    rt: &R,
    alloc: Global,
    modulus: &str,
    report: &str,
    told: &str,
) -> Result<(), Fail> {
    let mut files = MemFiles::of(alloc, held(alloc, &PAIRS)?, Vec::new(alloc));
    let words = [
        "homcubes",
        "--map",
        "map",
        "line",
        "outer",
        "long",
        "long outer",
        "--mod",
        modulus,
        "--witness",
        "w",
    ];
    ends_over(rt, alloc, &mut files, &words, Status::Done, (report, ""))?;
    ends_over(rt, alloc, &mut files, &REPLAYED, Status::Done, (told, ""))
}

// The run answers as it has to, and the file then holds the text.
fn writes<R: Threads + Abort>(
    rt: &R,
    alloc: Global,
    row: &Row,
    name: &str,
    text: &str,
) -> Result<(), Fail> {
    let words = words_of(alloc, row.words)?;
    let failing = Vec::from_slice(alloc, row.failing_reads)?;
    let mut files = MemFiles::of(alloc, held(alloc, &FILES)?, failing);
    let failing = Vec::from_slice(alloc, row.failing_writes)?;
    let mut out = MemSink::of(alloc, failing, row.most.max(1));
    let mut err = MemSink::of(alloc, Vec::new(alloc), 1000);
    let status = run(rt, alloc, &words, &mut files, &mut out, &mut err, &OpenGate);
    assert!(rt; status == row.status, "{:?}", status);
    assert_eq!(rt; out.bytes(), row.out.as_bytes());
    assert_eq!(rt; err.bytes(), row.err.as_bytes());
    let mut buffer = [0u8; 200];
    let Ok(count) = files.read_at(name, 0, &mut buffer) else {
        assert!(rt; false);
        return Ok(());
    };
    assert_eq!(rt; &buffer[..count], text.as_bytes());
    Ok(())
}
