//! The homology of a pair with the basis that it is read off.
ghost use Rattle.std.specs.Prelude.{◌≡◌, ◌⊎◌, IfOk, OnOk, IfErr};
ghost use Rattle.loading.specs.Jobs.{IsAllowed};
ghost use Rattle.pair_tool.specs.Jobs.{RefusesPair, IsHomologyOf, AreCountsOf};
ghost use Rattle.pair_witness.specs.Bases.{IsPreparedOf, IsBasisOfReport};

use basis_reports::cycles_by_degree;
use cell_complex::{CELLS, CellsFault, Numbered};
use faults::{Fault, LimitName};
use field_mod::Field;
use homology_basis::{Basis, Prepared, basis, prepare};
use loading::TwoSets;
use report::PairReport;
use std::alloc::{AllocError as NoMemory, Global};

/// What is printed on a pair, its relative cells, and the basis whose cycles are printed.
#[derive(Drop)]
pub struct PairBasis<const P: u16> {
    /// What is printed.
    pub report: PairReport,
    /// The relative cells, in the order of their numbers.
    pub cells: Numbered,
    /// The basis, by the numbers of the cells.
    pub basis: Basis<P>,
}

/// The pair prepared for its basis, or the refusal of too many cells.
pub(crate) fn prepared_of<const P: u16>(
    alloc: Global,
    field: Field<P>,
    pair: &TwoSets,
) -> Result<Prepared<P>, Fault>
    ensures prepared { IfOk result (IsPreparedOf P pair.now) }
    ensures few { OnOk result (IsAllowed RefusesPair pair.now) }
    ensures fault { IfErr result
        (λ fault. RefusesPair pair.now fault ⊎ (fault ≡ Fault.OutOfMemory)) }
{
    match prepare(alloc, field, &pair.x, &pair.y) {
        Ok(made) => Ok(made),
        Err(CellsFault::TooManyCells) => Err(Fault::Limit {
            count: LimitName::Cells,
            number: CELLS as u64,
        }),
        Err(CellsFault::NoMemory) => Err(Fault::OutOfMemory),
    }
}

/// The homology of a pair that is prepared, with the cells and the basis that it is read off.
pub(crate) fn pair_basis<const P: u16>(
    alloc: Global,
    field: Field<P>,
    pair: &TwoSets,
    prepared: Prepared<P>,
) -> Result<PairBasis<P>, NoMemory>
    requires { IsPreparedOf P pair.now prepared }
    ensures right { IfOk result (λ made.
        IsHomologyOf P pair.now made.report.dimensions made.report.cycles) }
    ensures counts { IfOk result (λ made. AreCountsOf P pair.now made.report) }
    ensures basis { IfOk result (IsBasisOfReport P pair.now) }
{
    let most = pair.x.dimension().max(pair.y.dimension());
    let Prepared {
        cells,
        grown,
        left,
        log,
    } = prepared;
    let count = cells.len();
    let basis = basis(alloc, field, log)?;
    let (dimensions, cycles) = cycles_by_degree(alloc, &cells, &basis, most)?;
    let report = PairReport {
        dimensions,
        cycles,
        cells: count,
        grown,
        left,
    };
    Ok(PairBasis {
        report,
        cells,
        basis,
    })
}
