//! The errors that the system answers, counted.
ghost use Rattle.std.specs.Prelude.{◌≡◌, ◌<◌, Ok, IfOk, OnErr, IsErr};
ghost use Rattle.outside.specs.Causes.{HasCause, counted};
ghost use Rattle.outside.specs.Real.{TakesNothing};

use crate::Failed;
use std::io;
use std::marker::Model;

/// How many answers were errors, up to `2 ^ 64 - 1`. The count rises by these calls alone, so only
/// where the system answered an error.
#[derive(Drop)]
pub(crate) struct Errors {
    count: u64,
}

impl Model for Errors {
    ghost use Rattle.std.specs.Prelude.{ℕ, ◌^◌, ◌<◌};

    ghost Value = { ℕ };

    ghost view = { λ e. e.count };

    ghost invariant = { λ e. e.count < 2 ^ 64 };
}

impl Errors {
    /// None so far.
    pub(crate) fn none() -> Errors
        ensures { result ≡ 0 }
    {
        Errors { count: 0 }
    }

    /// The answer of a call. An error counts once.
    pub(crate) fn hear<T>(&mut self, answer: io::Result<T>) -> Result<T, Failed>
        ensures ok { IfOk result (λ x. answer ≡ Ok x) }
        ensures err { OnErr result (IsErr answer) }
        ensures counts { self.new ≡ counted self.old result }
        ensures cause { HasCause self.old self.new result }
    {
        match answer {
            Ok(x) => Ok(x),
            Err(_) => {
                self.count = self.count.saturating_add(1);
                Err(Failed)
            }
        }
    }

    /// The answer of a write of some bytes, which is to take at least one. An error counts once,
    /// and so does a write that took nothing.
    pub(crate) fn hear_write(&mut self, answer: io::Result<usize>) -> Result<usize, Failed>
        ensures ok { IfOk result (λ n. (answer ≡ Ok n) × (0 < n)) }
        ensures err { OnErr result (TakesNothing answer) }
        ensures counts { self.new ≡ counted self.old result }
        ensures cause { HasCause self.old self.new result }
    {
        match answer {
            Ok(n) if n > 0 => Ok(n),
            _ => {
                self.count = self.count.saturating_add(1);
                Err(Failed)
            }
        }
    }
}
