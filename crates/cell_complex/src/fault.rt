//! Why the cells of a pair are not numbered.
use std::alloc::{AllocError, AllocFailed};
use thiserror::Error;

/// Why the cells of a pair are not numbered.
#[derive(Clone, Copy, Debug, PartialEq, Eq, Error)]
pub enum CellsFault {
    /// The two sets together have more than `CELLS` cells.
    #[error("too many cells")]
    TooManyCells,
    #[error("out of memory")]
    NoMemory,
}

impl From<AllocError> for CellsFault {
    ghost use Rattle.std.specs.Prelude.{◌≡◌};
    ghost use Rattle.cell_complex.specs.declared.fault.CellsFault.TheVariants.{NoMemory};

    ghost from_gives = { λ _ fault. fault ≡ NoMemory };

    fn from(_error: AllocError) -> CellsFault {
        CellsFault::NoMemory
    }
}

impl<T: Drop> From<AllocFailed<T>> for CellsFault {
    ghost use Rattle.std.specs.Prelude.{◌≡◌};
    ghost use Rattle.cell_complex.specs.declared.fault.CellsFault.TheVariants.{NoMemory};

    ghost from_gives = { λ _ fault. fault ≡ NoMemory };

    fn from(_error: AllocFailed<T>) -> CellsFault {
        CellsFault::NoMemory
    }
}
