//! Numbers that wait for their turn.
ghost use Rattle.std.specs.Prelude.{◌≡◌, ◌≢◌, ℕ, ◌<◌, ◌⊎◌, true, false, length, slice_index_or, OnOk, IfOk, IfSome, IfNone};
ghost use Rattle.excision.specs.Left.{is_one_of};

use std::alloc::{AllocError, Global};
use std::collections::VecDeque;
use std::marker::Model;

/// Numbers that wait for their turn, each once, the one that came first in front. They are seen as
/// their list.
#[derive(Drop)]
pub struct Waiting {
    numbers: VecDeque<u32>,
    // A number that is marked waits already.
    marks: Vec<bool>,
}

impl Model for Waiting {
    ghost use Rattle.std.specs.Prelude.{ℕ, List};
    ghost use Rattle.excision.specs.Marks.{AreMarked};

    ghost Value = { List ℕ };

    ghost view = { λ w. w.numbers.items };

    ghost invariant = { λ w. AreMarked w.marks.items w.numbers.items };
}

impl Waiting {
    /// All numbers below a count wait.
    pub fn below(alloc: Global, count: u32) -> Result<Waiting, AllocError>
        ensures { IfOk result (λ w. (n : ℕ) → n < count → is_one_of w n ≡ true) }
    {
        let mut numbers = VecDeque::with_capacity(alloc, count as usize)?;
        let mut marks = Vec::with_capacity(alloc, count as usize)?;
        for number in 0..count {
            numbers.push_back(number)?;
            marks.push(true)?;
        }
        Ok(Waiting { numbers, marks })
    }

    /// One more number waits.
    pub fn push(&mut self, number: u32) -> Result<(), AllocError>
        ensures kept { OnOk result ((n : ℕ) → is_one_of self.old n ≡ true
            → is_one_of self.new n ≡ true) }
        ensures added { OnOk result (is_one_of self.new number ≡ true) }
    {
        if is_marked(&self.marks, number) {
            return Ok(());
        }
        self.numbers.push_back(number)?;
        mark(&mut self.marks, number);
        Ok(())
    }

    /// The number in front, which then does not wait.
    pub fn pop(&mut self) -> Option<u32>
        ensures kept { IfSome result (λ i. (n : ℕ) → is_one_of self.old n ≡ true → (n ≡ i)
            ⊎ (is_one_of self.new n ≡ true)) }
        ensures fewer { IfSome result (λ i. length self.new < length self.old) }
        ensures none { IfNone result ((n : ℕ) → is_one_of self.old n ≡ false) }
    {
        let Some(number) = self.numbers.pop_front() else {
            return None;
        };
        unmark(&mut self.marks, number);
        Some(number)
    }
}

fn is_marked(marks: &[bool], number: u32) -> bool
    ensures { result ≡ slice_index_or marks.now number false }
{
    let place = number as usize;
    if place < marks.len() {
        marks[place]
    } else {
        false
    }
}

// Marks a number that has a mark.
fn mark(marks: &mut Vec<bool>, number: u32)
    ensures { (n : ℕ) → slice_index_or marks.new.items n false ≡ true → (n ≡ number)
        ⊎ (slice_index_or marks.old.items n false ≡ true) }
{
    let place = number as usize;
    if place < marks.len() {
        marks[place] = true;
    }
}

fn unmark(marks: &mut Vec<bool>, number: u32)
    ensures { (n : ℕ) → slice_index_or marks.new.items n false ≡ true → (n ≢ number)
        × (slice_index_or marks.old.items n false ≡ true) }
{
    let place = number as usize;
    if place < marks.len() {
        marks[place] = false;
    }
}
