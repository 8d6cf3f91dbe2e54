//! Why a line is not the one that is due.
ghost use Rattle.std.specs.Prelude.{◌≡◌};
ghost use Rattle.witness_runs.specs.Misses.{stop_at};

use std::alloc::AllocError;
use witness_laws::Law;

/// Why the line at the front is not one that is due.
#[derive(Debug, Clone, Copy, PartialEq, Eq)]
pub enum Miss {
    /// No such line stands there.
    Text,
    /// It names a cell that it may not name.
    Cell,
    /// Memory ran out.
    NoMemory,
}

impl From<AllocError> for Miss {
    ghost use Rattle.std.specs.Prelude.{◌≡◌};
    ghost use Rattle.witness_runs.specs.declared.miss.Miss.TheVariants.{NoMemory};

    ghost from_gives = { λ _ miss. miss ≡ NoMemory };

    fn from(_error: AllocError) -> Miss {
        Miss::NoMemory
    }
}

/// How many bytes are left from the first line on that fails, and the law by which it does, or no
/// memory.
#[derive(Debug, Clone, Copy, PartialEq, Eq)]
pub enum Stop {
    /// The line that fails stands at the front of the bytes that are left.
    At { left: usize, law: Law },
    /// Memory ran out.
    NoMemory,
}

impl From<AllocError> for Stop {
    ghost use Rattle.std.specs.Prelude.{◌≡◌};
    ghost use Rattle.witness_runs.specs.declared.miss.Stop.TheVariants.{NoMemory};

    ghost from_gives = { λ _ stop. stop ≡ NoMemory };

    fn from(_error: AllocError) -> Stop {
        Stop::NoMemory
    }
}

impl Stop {
    /// A miss at the front of so many bytes. It takes no memory.
    pub fn at(left: usize, miss: Miss) -> Stop
        ensures { result ≡ stop_at left miss }
    {
        match miss {
            Miss::Text => Stop::At {
                left,
                law: Law::Text,
            },
            Miss::Cell => Stop::At {
                left,
                law: Law::Cell,
            },
            Miss::NoMemory => Stop::NoMemory,
        }
    }
}
