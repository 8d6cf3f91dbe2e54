//! The step that a generator is in.
ghost use Rattle.std.specs.Prelude.{◌≡◌, ◌+◌, ◌<◌, ◌^◌, Some, None};

use std::marker::Model;

/// The step that a generator is in, or that it is in none. It takes four bytes: kept is one more
/// than the number of the step, or 0.
#[derive(Drop)]
pub struct Place {
    code: u32,
}

impl Model for Place {
    ghost use Rattle.std.specs.Prelude.{ℕ, Option};
    ghost use Rattle.algebraic_reduction.specs.Places.{step_in};

    ghost Value = { Option ℕ };

    ghost view = { λ p. step_in p.code };
}

impl Place {
    /// No step.
    pub fn none() -> Place
        ensures { result ≡ None }
    {
        Place { code: 0 }
    }

    /// The step of a number.
    pub fn of(step: u32) -> Place
        requires { step + 1 < 2 ^ 32 }
        ensures { result ≡ Some step }
    {
        Place { code: step + 1 }
    }

    /// The number of the step.
    pub fn step(&self) -> Option<u32>
        ensures { result ≡ self.now }
    {
        if self.code == 0 {
            None
        } else {
            Some(self.code - 1)
        }
    }
}
