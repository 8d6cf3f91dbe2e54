//! Why an inclusion gives no index matrices.
use chains::Chain;
use std::alloc::{AllocError, AllocFailed};

/// A chain that shows why an inclusion is not invertible in a degree.
#[derive(Drop)]
pub enum Side<const P: u16> {
    /// A cycle of the first pair, by the numbers of its cells, that is not null there and is null
    /// in the second.
    Killed(Chain<P>),
    /// A cocycle of the second pair, by the numbers of its cells, that is not 0 on its cycles and
    /// is 0 on each cycle of the first pair; no cycle is killed.
    Missed(Chain<P>),
}

/// Why there are no index matrices, or none were made.
#[derive(Drop)]
pub enum IndexFault<const P: u16> {
    /// The least degree in which the inclusion is not invertible, and a chain that shows it.
    NotInvertible { degree: u8, side: Side<P> },
    /// Memory ran out.
    NoMemory,
}

impl<const P: u16> From<AllocError> for IndexFault<P> {
    ghost use Rattle.std.specs.Prelude.{◌≡◌};
    ghost use Rattle.index_map.specs.declared.fault.IndexFault.TheVariants.{NoMemory};

    ghost from_gives = { λ _ fault. fault ≡ NoMemory };

    fn from(_error: AllocError) -> IndexFault<P> {
        IndexFault::NoMemory
    }
}

impl<const P: u16, T: Drop> From<AllocFailed<T>> for IndexFault<P> {
    ghost use Rattle.std.specs.Prelude.{◌≡◌};
    ghost use Rattle.index_map.specs.declared.fault.IndexFault.TheVariants.{NoMemory};

    ghost from_gives = { λ _ fault. fault ≡ NoMemory };

    fn from(_error: AllocFailed<T>) -> IndexFault<P> {
        IndexFault::NoMemory
    }
}
