//! What may stand in a set file, and why a text is refused.
use std::alloc::AllocError;
use thiserror::Error;

/// Which cells a set file may hold: any, or full cubes alone.
#[derive(Clone, Copy, Debug, PartialEq, Eq)]
pub enum Kind {
    Any,
    Full,
}

/// Why a text is refused at a place.
#[derive(Clone, Copy, Debug, PartialEq, Eq, Error)]
pub enum TextCause {
    #[error("bad byte")]
    BadByte,
    #[error("bad number")]
    BadNumber,
    #[error("not closed")]
    Unclosed,
    #[error("mixed dimension")]
    MixedDimension,
    #[error("dimension too large")]
    DimensionTooLarge,
    #[error("coordinate too large")]
    CoordinateTooLarge,
    #[error("not an elementary cube")]
    NotElementary,
    #[error("not a full cube")]
    NotFull,
    #[error("too many cubes")]
    TooMany,
}

/// Why a text has no value: a cause at a place, counted in bytes from 0, or no memory was left.
#[derive(Clone, Copy, Debug, PartialEq, Eq, Error)]
pub enum TextFault {
    #[error("byte {place}: {cause}")]
    At { place: u64, cause: TextCause },
    #[error("out of memory")]
    NoMemory,
}

impl From<AllocError> for TextFault {
    ghost use Rattle.std.specs.Prelude.{◌≡◌};
    ghost use Rattle.grid_files.specs.declared.fault.TextFault.TheVariants.{NoMemory};

    ghost from_gives = { λ _ fault. fault ≡ NoMemory };

    fn from(_error: AllocError) -> TextFault {
        TextFault::NoMemory
    }
}
