//! Reports, and their texts.
ghost use Rattle.std.specs.Prelude.{◌≡◌, ◌++◌, IfOk, OnOk};
ghost use Rattle.report.specs.ReportText.{report_text};

use crate::accepted_lines::put_accepted;
use crate::lines::{put_groups, put_pair};
use crate::map_lines::put_map;
use crate::{Accepted, Cycles, Dimensions, MapReport, PairReport};
use std::alloc::{AllocError as NoMemory, Global};

/// What a run prints where nothing is refused.
#[derive(Drop)]
pub enum Report {
    /// On a pair of cubical sets.
    Pair(PairReport),
    /// On a map between two pairs.
    Map(MapReport),
    /// On a chain complex: the dimensions of its groups by degree from 0, and the cycles of a basis
    /// in each degree, their terms by ascending generator. The cycles may be left out where they
    /// are not printed.
    Chain {
        dimensions: Dimensions,
        cycles: Cycles<u32>,
    },
    /// On a witness file that is accepted.
    Accepted(Accepted),
}

/// What of a report is printed, and how.
#[derive(Clone, Copy, Debug, PartialEq, Eq)]
pub struct Shown {
    /// The prime modulus of the coefficients.
    pub modulus: u16,
    /// Whether the cycles are printed.
    pub cycles: bool,
    /// Whether the matrices of a map are printed.
    pub matrix: bool,
    /// Whether the counts of a pair are printed.
    pub stats: bool,
}

/// The text of a report.
pub fn text(alloc: Global, report: &Report, shown: &Shown) -> Result<Vec<u8>, NoMemory>
    ensures { IfOk result (λ text. text.items ≡ report_text report.now shown.now) }
{
    let mut text = Vec::new(alloc);
    put_report(&mut text, report, shown)?;
    Ok(text)
}

// Adds the lines of a report.
fn put_report(to: &mut Vec<u8>, report: &Report, shown: &Shown) -> Result<(), NoMemory>
    ensures { OnOk result (to.new.items ≡ to.old.items ++ report_text report.now shown.now) }
{
    match report {
        Report::Pair(pair) => put_pair(to, shown, pair),
        Report::Map(map) => put_map(to, shown, map),
        Report::Chain { dimensions, cycles } => {
            put_groups(to, shown, dimensions.as_slice(), cycles)
        }
        Report::Accepted(accepted) => put_accepted(to, shown, accepted),
    }
}
