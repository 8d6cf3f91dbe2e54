//! What is printed on the homology of squares with holes.
ghost use Rattle.std.specs.Prelude.{◌≡◌, ◌++◌, IfOk, OnOk};
ghost use Rattle.gen_tool.specs.Summaries.{summary_line, summary_text};

use itoa::Buffer;
use report::{PairReport, Report, Shown, text};
use std::alloc::{AllocError as NoMemory, Global};

/// What is printed on the squares with n by n holes.
#[derive(Drop)]
pub struct Summary {
    /// The number n.
    pub holes: u16,
    /// How many squares there are.
    pub squares: u32,
    /// How many cells they have.
    pub cells: u32,
    /// Their homology, of which the dimensions are printed.
    pub homology: PairReport,
}

/// The text of a summary, with coefficients modulo this prime.
pub fn summary_text(alloc: Global, summary: Summary, modulus: u16) -> Result<Vec<u8>, NoMemory>
    ensures { IfOk result (λ text. text.items ≡ summary_text modulus summary) }
{
    let mut to = Vec::new(alloc);
    put_summary_line(&mut to, &summary)?;
    let shown = Shown {
        modulus,
        cycles: false,
        matrix: false,
        stats: false,
    };
    let groups = text(alloc, &Report::Pair(summary.homology), &shown)?;
    to.extend_from_slice(&groups)?;
    Ok(to)
}

// Adds the line on the squares and their cells.
fn put_summary_line(to: &mut Vec<u8>, summary: &Summary) -> Result<(), NoMemory>
    ensures { OnOk result (to.new.items ≡ to.old.items ++ summary_line summary.now) }
{
    let mut buffer = Buffer::new();
    to.extend_from_slice(b"holes ")?;
    to.extend_from_slice(buffer.format(summary.holes).as_bytes())?;
    to.extend_from_slice(b": ")?;
    to.extend_from_slice(buffer.format(summary.squares).as_bytes())?;
    to.extend_from_slice(b" cubes, ")?;
    to.extend_from_slice(buffer.format(summary.cells).as_bytes())?;
    to.extend_from_slice(b" cells\n")
}
