//! Bases of the homology of the two pairs of a map.
ghost use Rattle.std.specs.Prelude.{◌≡◌, ◌++◌, ◌≤◌, IfOk, IfErr};
ghost use Rattle.cell_complex.specs.CellCount.{cell_count};
ghost use Rattle.map_homology.specs.Bases.{IsPrepared, IsBasisOfPair, cycles_alone};

use algebraic_reduction::Log;
use cell_complex::{CELLS, CellList, CellsFault, Numbered};
use cube_sets::CubeSet;
use faults::Fault;
use field_mod::Field;
use homology_basis::{Basis, CycleBasis, Prepared, basis, cycle_basis, prepare};
use std::alloc::Global;

/// The relative cells of a pair, the members that were moved into the subset, and the cells that
/// were left.
#[derive(Drop)]
pub struct PairCells {
    /// The relative cells, in the order of their numbers.
    pub cells: Numbered,
    /// The members that were moved, in that order.
    pub grown: CellList,
    /// The cells that were left, in order.
    pub left: CellList,
}

// The cells of a pair that has not too many, and a log of their complex that leaves no boundary.
fn prepared<const P: u16>(
    alloc: Global,
    field: Field<P>,
    x: &CubeSet,
    a: &CubeSet,
) -> Result<(PairCells, Log<P>), Fault>
    requires few { cell_count (x.now.cells ++ a.now.cells) ≤ CELLS }
    ensures prepared { IfOk result (λ made.
        IsPrepared P x.now.cells a.now.cells made.0 made.1) }
    ensures fault { IfErr result (λ fault. fault ≡ Fault.OutOfMemory) }
{
    match prepare(alloc, field, x, a) {
        Ok(
            Prepared {
                cells,
                grown,
                left,
                log,
            },
        ) => {
            // Its clauses say that the cells stand in order.
            let _count = cells.len();
            Ok((PairCells { cells, grown, left }, log))
        }
        Err(CellsFault::TooManyCells) => unreachable!(),
        Err(CellsFault::NoMemory) => Err(Fault::OutOfMemory),
    }
}

/// The cells of a pair, and a basis of its homology by cycles alone.
pub(crate) fn domain_basis<const P: u16>(
    alloc: Global,
    field: Field<P>,
    x: &CubeSet,
    a: &CubeSet,
) -> Result<(PairCells, CycleBasis<P>), Fault>
    requires few { cell_count (x.now.cells ++ a.now.cells) ≤ CELLS }
    ensures basis { IfOk result (λ made.
        IsBasisOfPair P x.now.cells a.now.cells made.0 made.1) }
    ensures fault { IfErr result (λ fault. fault ≡ Fault.OutOfMemory) }
{
    let (cells, log) = prepared(alloc, field, x, a)?;
    let basis = cycle_basis(alloc, field, log)?;
    Ok((cells, basis))
}

/// The cells of a pair, and a basis of its homology with dual cocycles.
pub fn range_basis<const P: u16>(
    alloc: Global,
    field: Field<P>,
    y: &CubeSet,
    b: &CubeSet,
) -> Result<(PairCells, Basis<P>), Fault>
    requires few { cell_count (y.now.cells ++ b.now.cells) ≤ CELLS }
    ensures basis { IfOk result (λ made.
        IsBasisOfPair P y.now.cells b.now.cells made.0 (cycles_alone made.1)) }
    ensures fault { IfErr result (λ fault. fault ≡ Fault.OutOfMemory) }
{
    let (cells, log) = prepared(alloc, field, y, b)?;
    let basis = basis(alloc, field, log)?;
    Ok((cells, basis))
}
