//! Why a set that is made from another is not given, and the limit that counts for it.
use std::alloc::AllocError;
use thiserror::Error;

/// Why a set that is made from another is not given.
#[derive(Clone, Copy, Debug, PartialEq, Eq, Error)]
pub enum SetFault {
    /// A cube of it has an end outside the range of the files.
    #[error("a cube out of range")]
    Coordinates,
    /// It has more members than are wanted.
    #[error("too many cubes")]
    TooMany,
    #[error("out of memory")]
    NoMemory,
}

impl From<AllocError> for SetFault {
    ghost use Rattle.std.specs.Prelude.{◌≡◌};
    ghost use Rattle.cube_sets.specs.declared.fault.SetFault.TheVariants.{NoMemory};

    ghost from_gives = { λ _ fault. fault ≡ NoMemory };

    fn from(_error: AllocError) -> SetFault {
        SetFault::NoMemory
    }
}

/// The most distinct members of a set file, and of the result of a set tool.
pub const CUBES: u32 = 1_048_576;
