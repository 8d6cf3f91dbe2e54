//! The laws of witness files, and why a witness is refused.
use std::alloc::AllocError;

/// A law, in the order in which they are told of one line.
#[derive(Debug, Clone, Copy, PartialEq, Eq)]
pub enum Law {
    /// The line is one that may stand there.
    Text,
    /// The first three lines name the version, the modulus and the claim.
    Header,
    /// A line names cells of the kind that it may name.
    Cell,
    /// The boundary of a cycle is empty.
    Cycle,
    /// A cocycle has the value 1 on its cycle and 0 on the others of its degree.
    Dual,
    /// A cocycle is 0 on boundaries.
    Cocycle,
    /// The chain of a cell contracts the pair to its cycles.
    Contraction,
    /// The chain of a cell of a value contracts the value to its vertex.
    ValueContraction,
    /// The image of a cell is on its value.
    Carried,
    /// The image of a vertex has augmentation 1.
    Augmentation,
    /// The boundary of an image is the image of the boundary.
    Commutes,
    /// The rows of a matrix are products of cocycles with images of cycles.
    Matrix,
}

/// The first line of a witness that fails and the law by which it does, or no memory.
#[derive(Debug, Clone, Copy, PartialEq, Eq)]
pub enum WitnessFault {
    /// Lines count from 1.
    At { line: u64, law: Law },
    /// Memory ran out.
    NoMemory,
}

impl From<AllocError> for WitnessFault {
    ghost use Rattle.std.specs.Prelude.{◌≡◌};
    ghost use Rattle.witness_laws.specs.declared.law.WitnessFault.TheVariants.{NoMemory};

    ghost from_gives = { λ _ fault. fault ≡ NoMemory };

    fn from(_error: AllocError) -> WitnessFault {
        WitnessFault::NoMemory
    }
}
