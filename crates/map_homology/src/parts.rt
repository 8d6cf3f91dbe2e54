//! What is printed on a pair, from its cells and a basis.
ghost use Rattle.std.specs.Prelude.{◌≤◌, ℕ, length, IfOk};
ghost use Rattle.homology_basis.specs.Bases.{in_degree};
ghost use Rattle.basis_reports.specs.ByDegree.{AreNumbersIn, CanNameAll};
ghost use Rattle.map_homology.specs.Bases.{IsPartOf};

use crate::bases::PairCells;
use basis_reports::{HasCycles, cycles_by_degree};
use report::PairReport;
use std::alloc::{AllocError as NoMemory, Global};

/// What is printed on a pair: the dimensions and the cycles of a basis by degree from 0 to `most`,
/// and the counts.
pub fn part_of<B: HasCycles>(
    alloc: Global,
    pair: PairCells,
    basis: &B,
    most: u8,
) -> Result<PairReport, NoMemory>
    requires names { (k : ℕ) → k ≤ most
        → CanNameAll (AreNumbersIn 0 (length pair.cells)) (in_degree (B.cycles basis.now) k) }
    ensures { IfOk result (IsPartOf pair (B.cycles basis.now) most) }
{
    let PairCells { cells, grown, left } = pair;
    let (dimensions, cycles) = cycles_by_degree(alloc, &cells, basis, most)?;
    Ok(PairReport {
        dimensions,
        cycles,
        cells: cells.len(),
        grown,
        left,
    })
}
