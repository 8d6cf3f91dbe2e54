//! Runs that test a witness: as it stands, for other files, with one line changed, and cut short.
use crate::rows::{DONE, Row, all_answer, ends};
use crate::texts::{LINE, LONG, LONG_OUTER, MAP, OF_EDGE, OF_MAP, OUTER};
use faults::Status;
use std::alloc::Global;
use std::process::Abort;
use std::test::Fail;
use std::thread::Threads;

const FILES: [(&str, &str); 11] = [
    ("double", OF_MAP),
    ("map", MAP),
    ("line", LINE),
    ("outer", OUTER),
    ("long", LONG),
    ("long outer", LONG_OUTER),
    ("right", OF_EDGE),
    ("edge", EDGE),
    ("half", HALF),
    ("empty", ""),
    ("four", "chomp witness 1\nmod 4\n"),
];

const EDGE: &str = "(0)";

const ENDS: &str = "[(0)(0)] [(1)(1)]";

// Of an edge without a subset: an end is a cycle, and its cocycle is that end alone, which is not 0
// on the boundary of the edge.
const HALF: &str = "chomp witness 1\nmod 2\nclaim pair\n\
     pair domain\nz 0: 1*1\nc 0: 1*1\nh 1:\nh 2:\nh 3:\nend\n";

const ON_MAP: [&str; 7] = ["replay", "w", "map", "line", "outer", "long", "long outer"];

const ON_EDGE: [&str; 4] = ["replay", "w", "edge", "ends"];

const REFUSED: Row = Row {
    status: Status::Witness,
    ..DONE
};

const ROWS: [Row; 10] = [
    Row {
        words: &[
            "replay",
            "double",
            "map",
            "line",
            "outer",
            "long",
            "long outer",
        ],
        out: "accepted\ndomain\nH_0 = 0\nH_1 = Z_2\nrange\nH_0 = 0\nH_1 = Z_2\n\
              map\nF_0 rank 0\nF_1 rank 1\n",
        ..DONE
    },
    // Without the subset all three cells are relative.
    Row {
        words: &["replay", "right", "edge"],
        err: "error: right: line 7: Text\n",
        ..REFUSED
    },
    Row {
        words: &["replay", "half", "edge"],
        err: "error: half: line 6: Cocycle\n",
        ..REFUSED
    },
    // The number of files has to be that of the claim.
    Row {
        words: &[
            "replay",
            "right",
            "map",
            "line",
            "outer",
            "long",
            "long outer",
        ],
        err: "error: right: line 3: Header\n",
        ..REFUSED
    },
    Row {
        words: &["replay", "double", "line", "outer"],
        err: "error: double: line 3: Header\n",
        ..REFUSED
    },
    Row {
        words: &["replay", "empty", "edge"],
        err: "error: empty: line 1: Header\n",
        ..REFUSED
    },
    // With a header that is refused no other file is read.
    Row {
        words: &["replay", "four", "absent"],
        err: "error: four: line 2: Header\n",
        ..REFUSED
    },
    Row {
        words: &["replay", "double", "map", "line", "outer", "line", "outer"],
        status: Status::MapRefused,
        err: "error: map: (-2) -> (-4) leaves the range\n",
        ..DONE
    },
    Row {
        words: &["replay", "double", "map", "line", "outer"],
        status: Status::Words,
        err: "error: words: not a form of replay\n",
        ..DONE
    },
    Row {
        words: &["replay", "right", "edge", "--mod", "2"],
        status: Status::Words,
        err: "error: words: not a form of replay\n",
        ..DONE
    },
];

// A line of a witness, counted from 1, what stands in its place, and what is told.
type Change = (usize, &'static str, &'static str);

const OF_THE_EDGE: [Change; 5] = [
    (2, "mod 4\n", "line 2: Header"),
    (
        5,
        "z 1: 1*2 1*9999999999999999999999999999999999999999\n",
        "line 5: Cell",
    ),
    // The same cycle twice.
    (5, "z 1: 1*2\nz 1: 1*2\nc 1: 1*2\n", "line 7: Dual"),
    (7, "h 2: 1*2\n", "line 7: Cell"),
    (8, "end\n\n", "line 9: Text"),
];

// By the law that the first failing line breaks.
const OF_THE_MAP: [Change; 62] = [
    (1, "chomp witness 3\n", "line 1: Header"),
    (2, "mod 4\n", "line 2: Header"),
    (2, "mod 02\n", "line 2: Header"),
    (3, "claim pair\n", "line 3: Header"),
    (4, "", "line 4: Text"),
    (5, "", "line 5: Text"),
    (5, "z 1: 1*4 1*6\nz 1: 1*4 1*6\n", "line 8: Text"),
    // With the cycle and its cocycle twice, the row of the matrix has two entries.
    (5, "z 1: 1*4 1*6\nz 1: 1*4 1*6\nc 1: 1*4\n", "line 71: Text"),
    (5, "z 1: 1*6 1*4\n", "line 5: Text"),
    (5, "z 1: 1*4 2*6\n", "line 5: Text"),
    (5, "z 1:  1*4 1*6\n", "line 5: Text"),
    (5, "z 1: 1*4 1*6\r\n", "line 5: Text"),
    (5, "z 2: 1*4 1*6\n", "line 5: Text"),
    (6, "", "line 6: Text"),
    (6, "c 0: 1*4\n", "line 6: Text"),
    (7, "", "line 7: Text"),
    (8, "h 6: 1*6\n", "line 8: Text"),
    (10, "", "line 10: Text"),
    (16, "", "line 16: Text"),
    (17, "v 1 01\n", "line 17: Text"),
    (20, "", "line 20: Text"),
    (20, "g 1 3: 1*2\ng 1 3: 1*2\n", "line 21: Text"),
    (23, "", "line 23: Text"),
    (68, "", "line 68: Text"),
    (69, "", "line 69: Text"),
    (69, "m 1: 2\n", "line 69: Text"),
    (69, "m 1: 1 1\n", "line 69: Text"),
    (69, "m 1:\n", "line 69: Text"),
    (69, "m 1: 1\nm 1: 1\n", "line 70: Text"),
    (70, "end", "line 70: Text"),
    (70, "end\n\n", "line 71: Text"),
    (70, "end\nend\n", "line 71: Text"),
    (5, "z 1: 1*5\n", "line 5: Cell"),
    // A cell of the subset, and one that is not there.
    (5, "z 1: 1*2\n", "line 5: Cell"),
    (
        5,
        "z 1: 1*4 1*9999999999999999999999999999999999999999\n",
        "line 5: Cell",
    ),
    (6, "c 1: 1*5\n", "line 6: Cell"),
    (7, "h 4: 1*6\n", "line 7: Cell"),
    (8, "h 5: 1*8\n", "line 8: Cell"),
    (17, "v 1 2\n", "line 17: Cell"),
    (17, "v 1 7\n", "line 17: Cell"),
    (20, "g 1 3: 1*3\n", "line 20: Cell"),
    (20, "g 1 3: 1*6\n", "line 20: Cell"),
    (23, "f 1: 1*2\n", "line 23: Cell"),
    (23, "f 1: 1*18\n", "line 23: Cell"),
    (30, "f 2: 1*3\n", "line 30: Cell"),
    (5, "z 1: 1*4\n", "line 5: Cycle"),
    (11, "z 1: 1*8\n", "line 11: Cycle"),
    (6, "c 1:\n", "line 6: Dual"),
    (5, "z 0: 1*5\nz 1: 1*4 1*6\nc 0: 1*5\n", "line 7: Cocycle"),
    // That of another edge is a cocycle too; then the contraction is not that of its projection.
    (6, "c 1: 1*6\n", "line 7: Contraction"),
    (8, "h 5: 1*4\n", "line 7: Contraction"),
    (2, "mod 3\n", "line 7: Contraction"),
    (14, "h 9:\n", "line 13: Contraction"),
    (17, "v 1 3\n", "line 18: ValueContraction"),
    (22, "g 1 5: 1*2\n", "line 21: ValueContraction"),
    (23, "f 1: 1*7\n", "line 23: Carried"),
    (23, "f 1:\n", "line 23: Augmentation"),
    (23, "f 1: 1*1 1*3\n", "line 23: Augmentation"),
    (23, "f 1: 1*3\n", "line 30: Commutes"),
    (30, "f 2: 1*2\n", "line 30: Commutes"),
    (60, "f 8: 1*14 1*16\n", "line 60: Commutes"),
    (69, "m 1: 0\n", "line 69: Matrix"),
];

// The text with this in the place of a line and its line feed.
fn changed(alloc: Global, text: &str, line: usize, new: &str) -> Result<String, Fail> {
    let mut whole = String::new(alloc);
    for (place, old) in text.split_inclusive('\n').enumerate() {
        whole.push_str(if place + 1 == line { new } else { old })?;
    }
    Ok(whole)
}

// The file `w` is refused as a witness, and this is told of it.
fn is_refused<R: Threads + Abort>(
    rt: &R,
    alloc: Global,
    words: &[&str],
    witness: &str,
    told: &str,
) -> Result<(), Fail> {
    let files = [
        ("w", witness),
        ("map", MAP),
        ("line", LINE),
        ("outer", OUTER),
        ("long", LONG),
        ("long outer", LONG_OUTER),
        ("edge", EDGE),
        ("ends", ENDS),
    ];
    let err = format!(in alloc; "error: w: {told}\n")?;
    ends(rt, alloc, &files, words, Status::Witness, ("", &err))
}

// Of each change of the witness the first failing line and its law are told.
fn are_told<R: Threads + Abort>(
    rt: &R,
    alloc: Global,
    words: &[&str],
    witness: &str,
    changes: &[Change],
) -> Result<(), Fail> {
    for (line, new, told) in changes {
        let witness = changed(alloc, witness, *line, new)?;
        is_refused(rt, alloc, words, &witness, told)?;
    }
    Ok(())
}

#[test]
fn witnesses_are_accepted_or_refused(rt: HostRuntime) -> Result<(), Fail> {
    all_answer(&rt, rt.alloc(), &FILES, &ROWS)
}

#[test]
fn changed_lines_are_told(rt: HostRuntime) -> Result<(), Fail> {
    are_told(&rt, rt.alloc(), &ON_EDGE, OF_EDGE, &OF_THE_EDGE)?;
    are_told(&rt, rt.alloc(), &ON_MAP, OF_MAP, &OF_THE_MAP)
}

#[test]
fn cut_ends_are_told(rt: HostRuntime) -> Result<(), Fail> {
    let mut front = String::new(rt.alloc());
    for letter in OF_MAP.chars() {
        let line = front.split('\n').count();
        let law = if line < 4 { "Header" } else { "Text" };
        let told = format!(in rt.alloc(); "line {line}: {law}")?;
        is_refused(&rt, rt.alloc(), &ON_MAP, &front, &told)?;
        front.push(letter)?;
    }
    Ok(())
}
