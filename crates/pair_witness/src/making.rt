//! The homology of a pair and its witness.
ghost use Rattle.loading.specs.TwoSets.{AreOperands};
ghost use Rattle.pair_witness.specs.Jobs.{IsMade};

use crate::bases::{PairBasis, pair_basis, prepared_of};
use faults::Fault;
use field_mod::Field;
use loading::TwoSets;
use report::PairReport;
use std::alloc::Global;
use witness_limits::test_cells;
use witness_parts::pair_witness;

// What is not below it is no witness file.
const WITNESS_BYTES: usize = 1_073_741_824;

/// The homology of a pair, and the bytes of its witness.
pub(crate) fn made_over<const P: u16>(
    alloc: Global,
    field: Field<P>,
    pair: &TwoSets,
) -> Result<(PairReport, Vec<u8>), Fault>
    requires { AreOperands pair.now }
    ensures { IsMade P pair.now result }
{
    let prepared = prepared_of(alloc, field, pair)?;
    // A basis with its cocycles is made for few cells alone.
    test_cells(alloc, &pair.x, &pair.y)?;
    let PairBasis {
        report,
        cells,
        basis,
    } = pair_basis(alloc, field, pair, prepared)?;
    let bytes = pair_witness(alloc, field, &pair.x, &pair.y, &cells, &basis)?;
    // At most 12,288 lines of at most 4,096 terms are fewer bytes; no proof says so.
    if bytes.len() >= WITNESS_BYTES {
        return Err(Fault::OutOfMemory);
    }
    Ok((report, bytes))
}
