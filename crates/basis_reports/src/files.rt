//! The homology of the complex of a chain file.
ghost use Rattle.std.specs.Prelude.{IfOk};
ghost use Rattle.chain_files.specs.Content.{Content};
ghost use Rattle.chain_files.specs.Complexes.{IsFileComplex};
ghost use Rattle.basis_reports.specs.Right.{IsRightFile, AreAsShown};

use crate::bases::cycles_by_degree;
use crate::dimensions::dimensions_of;
use crate::naming::InDegrees;
use algebraic_reduction::Log;
use chain_files::ChainFile;
use field_mod::Field;
use homology_basis::cycle_basis;
use report::{Cycles, Dimensions};
use std::alloc::{AllocError as NoMemory, Global};

/// The dimensions of the homology of the complex of a file, and the cycles of a basis where they
/// are shown, by degree from 0 to the greatest. Their terms name generators by their numbers in the
/// degree.
pub fn file_homology<const P: u16>(
    alloc: Global,
    field: Field<P>,
    file: ChainFile<P>,
    shown: bool,
) -> Result<(Dimensions, Cycles<u32>), NoMemory>
    ensures { IfOk result (λ made. (content : Content) → IsFileComplex P content file.entry
        → AreAsShown shown (IsRightFile P content made.0) made.1) }
{
    let top = file.top();
    let numbers = InDegrees::of(file.counts_below(alloc)?);
    let log = Log::start(alloc, file.into_complex())?.reduce_all(field)?;
    if shown {
        let basis = cycle_basis(alloc, field, log)?;
        let (dimensions, cycles) = cycles_by_degree(alloc, &numbers, &basis, top)?;
        return Ok((dimensions, cycles));
    }
    let dimensions = dimensions_of(alloc, field, &log, top)?;
    Ok((dimensions, Cycles::of(Vec::new(alloc))))
}
