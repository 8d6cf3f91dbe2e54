//! How many entries matrices have.
ghost use Rattle.std.specs.Prelude.{IfSome, IfNone};
ghost use Rattle.induced_map.specs.Matrices.{HaveFewEntries, IsFirstTooLarge};

use homology_basis::{Basis, CycleBasis};

// The most entries that a matrix may have.
const MATRIX_ENTRIES: u64 = 16_777_216;

/// The least degree, up to a last one, whose matrix would have more than 16,777,216 entries. It
/// takes no memory.
pub fn first_too_large<const P: u16>(
    domain: &CycleBasis<P>,
    range: &Basis<P>,
    last: u8,
) -> Option<u8>
    ensures some { IfSome result (IsFirstTooLarge domain.now range.now last) }
    ensures none { IfNone result (HaveFewEntries domain.now range.now last) }
{
    for degree in 0..u16::from(last) + 1 {
        let degree = degree as u8;
        let rows = u64::from(range.dimension(degree));
        if rows * u64::from(domain.dimension(degree)) > MATRIX_ENTRIES {
            return Some(degree);
        }
    }
    None
}
