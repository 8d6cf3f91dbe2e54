//! With ample memory each case is answered: every modulus, every dimension, the least and the
//! greatest degree.
use crate::rows::{DONE, Row, all_answer, prints};
use field_mod::MODULI;
use std::alloc::Global;
use std::process::Abort;
use std::test::Fail;
use std::thread::Threads;

const RING: &str = "(0,0) (1,0) (2,0) (0,1) (2,1) (0,2) (1,2) (2,2)";

// Two points and two edges between them.
const CIRCLE: &str = "chain complex max dimension 1 dimension 0: 2 dimension 1: 2 \
     # 1 = 1 * 1 + -1 * 2 # 2 = 1 * 1 + -1 * 2";

const FILES: [(&str, &str); 3] = [("ring", RING), ("circle", CIRCLE), ("middle", "(1 1)")];

#[test]
fn each_modulus_is_answered(rt: HostRuntime) -> Result<(), Fail> {
    for p in MODULI {
        modulus_is_answered(&rt, rt.alloc(), p)?;
    }
    Ok(())
}

// A set, a pair with its only cycle, and a chain file.
fn modulus_is_answered<R: Threads + Abort>(rt: &R, alloc: Global, p: u16) -> Result<(), Fail> {
    let number = format!(in alloc; "{p}")?;
    let words = ["homcubes", "ring", "--mod", number.as_str()];
    let out = format!(in alloc; "H_0 = Z_{p}\nH_1 = Z_{p}\nH_2 = 0\n")?;
    prints(rt, alloc, &FILES, &words, &out)?;
    let words = [
        "homcubes",
        "middle",
        "ring",
        "--cycles",
        "--mod",
        number.as_str(),
    ];
    let out = format!(in alloc; "H_0 = 0\nH_1 = 0\nH_2 = Z_{p}\nz_2_1 = 1 * [(1 1)(2 2)]\n")?;
    prints(rt, alloc, &FILES, &words, &out)?;
    let words = ["homchain", "circle", "--mod", number.as_str()];
    let out = format!(in alloc; "H_0 = Z_{p}\nH_1 = Z_{p}\n")?;
    prints(rt, alloc, &FILES, &words, &out)
}

// A cube of each dimension, and its boundary.
const CUBES: [(&str, &str); 9] = [
    ("1", "(0)"),
    ("2", "(0 0)"),
    ("3", "(0 0 0)"),
    ("4", "(0 0 0 0)"),
    ("of 1", "[(0)(0)] [(1)(1)]"),
    (
        "of 2",
        "[(0 0)(0 1)] [(1 0)(1 1)] [(0 0)(1 0)] [(0 1)(1 1)]",
    ),
    (
        "of 3",
        "[(0 0 0)(0 1 1)] [(1 0 0)(1 1 1)] [(0 0 0)(1 0 1)] [(0 1 0)(1 1 1)] \
         [(0 0 0)(1 1 0)] [(0 0 1)(1 1 1)]",
    ),
    (
        "of 4",
        "[(0 0 0 0)(0 1 1 1)] [(1 0 0 0)(1 1 1 1)] [(0 0 0 0)(1 0 1 1)] [(0 1 0 0)(1 1 1 1)] \
         [(0 0 0 0)(1 1 0 1)] [(0 0 1 0)(1 1 1 1)] [(0 0 0 0)(1 1 1 0)] [(0 0 0 1)(1 1 1 1)]",
    ),
    ("empty", ""),
];

const HOMOLOGY: [Row; 12] = [
    Row {
        words: &["homcubes", "1"],
        out: "H_0 = Z_2\nH_1 = 0\n",
        ..DONE
    },
    Row {
        words: &["homcubes", "2"],
        out: "H_0 = Z_2\nH_1 = 0\nH_2 = 0\n",
        ..DONE
    },
    Row {
        words: &["homcubes", "3"],
        out: "H_0 = Z_2\nH_1 = 0\nH_2 = 0\nH_3 = 0\n",
        ..DONE
    },
    Row {
        words: &["homcubes", "4"],
        out: "H_0 = Z_2\nH_1 = 0\nH_2 = 0\nH_3 = 0\nH_4 = 0\n",
        ..DONE
    },
    Row {
        words: &["homcubes", "of 1"],
        out: "H_0 = Z_2^2\nH_1 = 0\n",
        ..DONE
    },
    Row {
        words: &["homcubes", "of 2"],
        out: "H_0 = Z_2\nH_1 = Z_2\nH_2 = 0\n",
        ..DONE
    },
    Row {
        words: &["homcubes", "of 3"],
        out: "H_0 = Z_2\nH_1 = 0\nH_2 = Z_2\nH_3 = 0\n",
        ..DONE
    },
    Row {
        words: &["homcubes", "of 4"],
        out: "H_0 = Z_2\nH_1 = 0\nH_2 = 0\nH_3 = Z_2\nH_4 = 0\n",
        ..DONE
    },
    Row {
        words: &["homcubes", "1", "of 1", "--cycles"],
        out: "H_0 = 0\nH_1 = Z_2\nz_1_1 = 1 * [(0)(1)]\n",
        ..DONE
    },
    Row {
        words: &["homcubes", "2", "of 2", "--cycles"],
        out: "H_0 = 0\nH_1 = 0\nH_2 = Z_2\nz_2_1 = 1 * [(0 0)(1 1)]\n",
        ..DONE
    },
    Row {
        words: &["homcubes", "3", "of 3", "--cycles"],
        out: "H_0 = 0\nH_1 = 0\nH_2 = 0\nH_3 = Z_2\nz_3_1 = 1 * [(0 0 0)(1 1 1)]\n",
        ..DONE
    },
    Row {
        words: &["homcubes", "4", "of 4", "--cycles"],
        out: "H_0 = 0\nH_1 = 0\nH_2 = 0\nH_3 = 0\nH_4 = Z_2\nz_4_1 = 1 * [(0 0 0 0)(1 1 1 1)]\n",
        ..DONE
    },
];

#[test]
fn each_dimension_has_its_homology(rt: HostRuntime) -> Result<(), Fail> {
    all_answer(&rt, rt.alloc(), &CUBES, &HOMOLOGY)
}

// A cube of each dimension with its number of axes.
const NAMES: [(&str, u8); 4] = [("1", 1), ("2", 2), ("3", 3), ("4", 4)];

#[test]
fn each_dimension_has_its_sets(rt: HostRuntime) -> Result<(), Fail> {
    for (name, axes) in NAMES {
        sets_are_answered(&rt, rt.alloc(), name, axes)?;
    }
    Ok(())
}

// All tools on sets, on a cube.
fn sets_are_answered<R: Threads + Abort>(
    rt: &R,
    alloc: Global,
    name: &'static str,
    axes: u8,
) -> Result<(), Fail> {
    let head = format!(in alloc; "dimension {axes}\n")?;
    let cube = lines(alloc, &head, axes, &[("0", "1", true)])?;
    prints(rt, alloc, &CUBES, &["cubunion", name, "empty"], &cube)?;
    prints(rt, alloc, &CUBES, &["cubinter", name, name], &cube)?;
    prints(rt, alloc, &CUBES, &["cubinter", "empty", name], &head)?;
    let near = lines(
        alloc,
        &head,
        axes,
        &[("-1", "0", true), ("0", "1", true), ("1", "2", true)],
    )?;
    prints(rt, alloc, &CUBES, &["cubnbhd", name], &near)?;
    let cells = lines(
        alloc,
        &head,
        axes,
        &[("0", "0", false), ("0", "1", true), ("1", "1", false)],
    )?;
    prints(rt, alloc, &CUBES, &["cubcells", name], &cells)
}

// The corners of a cell, as far as its axes were chosen, and whether it is full along them.
#[derive(Drop, PartialEq, Eq, PartialOrd, Ord)]
struct Corners {
    lower: String,
    upper: String,
    full: bool,
}

// A line for each cell whose ends along each axis are among these, by its lower corner and then its
// upper one. With all ends full the cell is written by its lower corner.
fn lines(alloc: Global, head: &str, axes: u8, ends: &[(&str, &str, bool)]) -> Result<String, Fail> {
    let mut cells = Vec::new(alloc);
    cells.push(Corners {
        lower: String::new(alloc),
        upper: String::new(alloc),
        full: true,
    })?;
    for axis in 0..axes {
        let space = if axis == 0 { "" } else { " " };
        let mut longer = Vec::new(alloc);
        for cell in &cells {
            for (lower, upper, full) in ends {
                longer.push(Corners {
                    lower: format!(in alloc; "{}{space}{lower}", cell.lower)?,
                    upper: format!(in alloc; "{}{space}{upper}", cell.upper)?,
                    full: cell.full && *full,
                })?;
            }
        }
        cells = longer;
    }
    cells.sort()?;
    let mut text = String::from_str(alloc, head)?;
    for cell in &cells {
        let line = if cell.full {
            format!(in alloc; "({})\n", cell.lower)?
        } else {
            format!(in alloc; "[({})({})]\n", cell.lower, cell.upper)?
        };
        text.push_str(&line)?;
    }
    Ok(text)
}

#[test]
fn each_degree_is_answered(rt: HostRuntime) -> Result<(), Fail> {
    for top in [0, 63] {
        degrees_are_answered(&rt, rt.alloc(), top)?;
    }
    Ok(())
}

// A chain file with one generator in each degree, all of whose boundaries are 0.
fn degrees_are_answered<R: Threads + Abort>(rt: &R, alloc: Global, top: u8) -> Result<(), Fail> {
    let mut text = format!(in alloc; "chain complex max dimension {top}")?;
    let mut dimensions = String::new(alloc);
    let mut cycles = String::new(alloc);
    for degree in 0..=top {
        text.push_str(&format!(in alloc; " dimension {degree}: 1")?)?;
        let line = format!(in alloc; "H_{degree} = Z_2\n")?;
        dimensions.push_str(&line)?;
        cycles.push_str(&line)?;
        cycles.push_str(&format!(in alloc; "z_{degree}_1 = 1 * #1\n")?)?;
    }
    let files = [("degrees", text.as_str())];
    prints(rt, alloc, &files, &["homchain", "degrees"], &dimensions)?;
    prints(
        rt,
        alloc,
        &files,
        &["homchain", "degrees", "--cycles"],
        &cycles,
    )
}
