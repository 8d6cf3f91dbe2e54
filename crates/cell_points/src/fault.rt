//! Why the faces of a set are not given.
use std::alloc::AllocError;
use thiserror::Error;

/// Why the faces of a set are not given.
#[derive(Clone, Copy, Debug, PartialEq, Eq, Error)]
pub enum PointsFault {
    /// There are more than are wanted.
    #[error("too many cells")]
    TooMany,
    #[error("out of memory")]
    NoMemory,
}

impl From<AllocError> for PointsFault {
    ghost use Rattle.std.specs.Prelude.{◌≡◌};
    ghost use Rattle.cell_points.specs.declared.fault.PointsFault.TheVariants.{NoMemory};

    ghost from_gives = { λ _ fault. fault ≡ NoMemory };

    fn from(_error: AllocError) -> PointsFault {
        PointsFault::NoMemory
    }
}
