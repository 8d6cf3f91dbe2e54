//! The limit of the entries of a matrix.
ghost use Rattle.std.specs.Prelude.{◌≡◌, ℕ, IfErr, OnOk};
ghost use Rattle.induced_map.specs.Matrices.{HaveFewEntries, IsFirstTooLarge};
ghost use Rattle.map_homology.specs.Refusals.{most_entries};

use faults::{Fault, LimitName};
use homology_basis::{Basis, CycleBasis};
use induced_map::first_too_large;

// The most entries that a matrix may have.
const MATRIX_ENTRIES: u64 = 16_777_216;

/// Nothing where no matrix of a degree up to a last one would have too many entries, else the
/// limit.
pub fn test_entries<const P: u16>(
    domain: &CycleBasis<P>,
    range: &Basis<P>,
    last: u8,
) -> Result<(), Fault>
    ensures few { OnOk result (HaveFewEntries domain.now range.now last) }
    ensures large { IfErr result (λ _. (degree : ℕ)
        × IsFirstTooLarge domain.now range.now last degree) }
    ensures fault { IfErr result
        (λ fault. fault ≡ Fault.Limit LimitName.MatrixEntries most_entries) }
{
    match first_too_large(domain, range, last) {
        Some(_) => Err(Fault::Limit {
            count: LimitName::MatrixEntries,
            number: MATRIX_ENTRIES,
        }),
        None => Ok(()),
    }
}
