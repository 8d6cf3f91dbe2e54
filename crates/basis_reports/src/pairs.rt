//! The homology of a pair of sets.
ghost use Rattle.std.specs.Prelude.{◌≡◌, ◌<◌, ◌≤◌, ◌++◌, IfOk, OnOk, Err};
ghost use Rattle.cell_complex.specs.CellCount.{cell_count};
ghost use Rattle.excision.specs.Excision.{excised};
ghost use Rattle.basis_reports.specs.Right.{IsRightPair, AreAsShown, AreRightCounts};

use crate::bases::cycles_by_degree;
use crate::dimensions::dimensions_of;
use cell_complex::{CELLS, CellsFault};
use cube_sets::CubeSet;
use field_mod::Field;
use homology_basis::{Prepared, cycle_basis, prepare};
use report::{Cycles, PairReport};
use std::alloc::Global;

/// The dimensions of the homology of the pair of x and a, and the cycles of a basis where they are
/// shown, by degree from 0 to `most`; and the counts of the pair. `TooManyCells` comes exactly
/// where x and those members of a that meet it have together more than `CELLS` cells.
pub fn pair_homology<const P: u16>(
    alloc: Global,
    field: Field<P>,
    x: &CubeSet,
    a: &CubeSet,
    most: u8,
    shown: bool,
) -> Result<PairReport, CellsFault>
    ensures right { IfOk result (λ pair.
        AreAsShown shown (IsRightPair P most x.now.cells a.now.cells pair.dimensions) pair.cycles) }
    ensures counts { IfOk result (λ pair.
        AreRightCounts P x.now.cells a.now.cells pair.cells pair.grown pair.left) }
    ensures few { OnOk result (cell_count (x.now.cells ++ (excised x.now a.now).cells) ≤ CELLS) }
    ensures many { result ≡ Err CellsFault.TooManyCells
        → CELLS < cell_count (x.now.cells ++ (excised x.now a.now).cells) }
{
    let Prepared {
        cells,
        grown,
        left,
        log,
    } = prepare(alloc, field, x, a)?;
    let count = cells.len();
    if shown {
        let basis = cycle_basis(alloc, field, log)?;
        let (dimensions, cycles) = cycles_by_degree(alloc, &cells, &basis, most)?;
        return Ok(PairReport {
            dimensions,
            cycles,
            cells: count,
            grown,
            left,
        });
    }
    let dimensions = dimensions_of(alloc, field, &log, most)?;
    let cycles = Cycles::of(Vec::new(alloc));
    Ok(PairReport {
        dimensions,
        cycles,
        cells: count,
        grown,
        left,
    })
}
