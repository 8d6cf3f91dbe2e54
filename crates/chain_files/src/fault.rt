//! The limits of a chain file, and why a text is refused.
use std::alloc::AllocError;
use thiserror::Error;

/// Why a text is refused at a place.
#[derive(Clone, Copy, Debug, PartialEq, Eq, Error)]
pub enum ChainCause {
    #[error("bad byte")]
    BadByte,
    #[error("bad number")]
    BadNumber,
    #[error("not closed")]
    Unclosed,
    #[error("unknown generator")]
    UnknownGenerator,
    #[error("repeated generator")]
    RepeatedGenerator,
    #[error("too many generators")]
    TooManyGenerators,
    #[error("too many terms")]
    TooManyTerms,
}

/// Why a text gives no chain complex.
#[derive(Clone, Copy, Debug, PartialEq, Eq, Error)]
pub enum ChainFault {
    /// The text is refused with a cause at a place, counted in bytes from 0.
    #[error("byte {place}: {cause}")]
    At {
        place: u64,
        cause: ChainCause,
    },
    /// The boundary of the boundary of a generator is `value`, which is not 0, at the generator
    /// `at` of two degrees less. Both are numbered from 1 in their degree, as in the file.
    #[error("dimension {degree}: # {generator}: boundary of boundary has {value} * {at}")]
    NotComplex {
        degree: u8,
        generator: u32,
        at: u32,
        value: u16,
    },
    #[error("out of memory")]
    NoMemory,
}

impl From<AllocError> for ChainFault {
    ghost use Rattle.std.specs.Prelude.{◌≡◌};
    ghost use Rattle.chain_files.specs.declared.fault.ChainFault.TheVariants.{NoMemory};

    ghost from_gives = { λ _ fault. fault ≡ NoMemory };

    fn from(_e: AllocError) -> ChainFault {
        ChainFault::NoMemory
    }
}

/// The greatest degree that a chain file may have.
pub const MAX_DEGREE: u8 = 63;

/// The most generators of a chain file.
pub const GENERATORS: u32 = 1_048_576;

/// The most terms of a chain file.
pub const TERMS: u32 = 4_194_304;
