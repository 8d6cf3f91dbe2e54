//! Numbers that wait for their turn, in one of two orders.
ghost use Rattle.std.specs.Prelude.{◌≡◌, ℕ, ◌<◌, ◌⊎◌, true, false, length, OnOk, IfSome, IfNone};
ghost use Rattle.excision.specs.Left.{is_one_of};

use std::alloc::{AllocError, Global};
use std::collections::VecDeque;
use std::marker::Model;

/// Numbers that wait for their turn: one more comes in front of all others, or behind them. A
/// number may stand more than once. They are seen as their list.
#[derive(Drop)]
pub(crate) struct Front {
    numbers: VecDeque<u32>,
    newest_first: bool,
}

impl Model for Front {
    ghost use Rattle.std.specs.Prelude.{ℕ, List};

    ghost Value = { List ℕ };

    ghost view = { λ w. w.numbers.items };
}

impl Front {
    /// None waits; there is room for so many.
    pub(crate) fn new(alloc: Global, room: usize, newest_first: bool) -> Result<Front, AllocError> {
        Ok(Front {
            numbers: VecDeque::with_capacity(alloc, room)?,
            newest_first,
        })
    }

    /// Whether one more number comes in front of all others.
    pub(crate) fn is_newest_first(&self) -> bool {
        self.newest_first
    }

    /// One more number waits, before all others or behind them.
    pub(crate) fn push(&mut self, number: u32) -> Result<(), AllocError>
        ensures kept { OnOk result ((n : ℕ) → is_one_of self.old n ≡ true
            → is_one_of self.new n ≡ true) }
        ensures added { OnOk result (is_one_of self.new number ≡ true) }
    {
        if self.newest_first {
            self.numbers.push_front(number)?;
        } else {
            self.numbers.push_back(number)?;
        }
        Ok(())
    }

    /// One more number waits behind all others.
    pub(crate) fn push_last(&mut self, number: u32) -> Result<(), AllocError>
        ensures kept { OnOk result ((n : ℕ) → is_one_of self.old n ≡ true
            → is_one_of self.new n ≡ true) }
        ensures added { OnOk result (is_one_of self.new number ≡ true) }
    {
        self.numbers.push_back(number)?;
        Ok(())
    }

    /// The number in front, which then does not wait unless it stands a further time.
    pub(crate) fn pop(&mut self) -> Option<u32>
        ensures kept { IfSome result (λ i. (n : ℕ) → is_one_of self.old n ≡ true → (n ≡ i)
            ⊎ (is_one_of self.new n ≡ true)) }
        ensures fewer { IfSome result (λ i. length self.new < length self.old) }
        ensures none { IfNone result ((n : ℕ) → is_one_of self.old n ≡ false) }
    {
        self.numbers.pop_front()
    }
}
