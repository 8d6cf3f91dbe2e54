//! A sink in memory, whose writes fail by number.
ghost use Rattle.std.specs.Prelude.{◌≡◌, ◌≤◌, Some, []};

use super::files::counts_failing;
use crate::{Failed, Sink};
use std::alloc::Global;

/// A sink in memory that tells what was written. Writes are numbered from 1, and those whose number
/// is in a list fail.
#[derive(Drop)]
pub struct MemSink {
    bytes: Vec<u8>,
    failing: Vec<u64>,
    most: usize,
    calls: u64,
    faults: u64,
    refused: u64,
    ghost takes: { 1 ≤ most },
}

impl MemSink {
    ghost use Rattle.outside.specs.Memory.{IsNew, refused_at};

    /// An empty sink that takes at most `most` bytes per call, at least 1, and the numbers of the
    /// writes that are to fail. Takes no memory.
    pub fn of(alloc: Global, failing: Vec<u64>, most: usize) -> Self
        requires { 1 ≤ most }
        ensures written { ⟦<MemSink as Sink>⟧.written result ≡ Some [] }
        ensures new { IsNew failing.items most result }
    {
        MemSink {
            bytes: Vec::new(alloc),
            failing,
            most,
            calls: 0,
            faults: 0,
            refused: 0,
        }
    }

    /// What was written.
    pub fn bytes(&self) -> &[u8]
        ensures { ⟦<MemSink as Sink>⟧.written self.now ≡ Some result.now }
    {
        &self.bytes
    }

    /// How many writes failed for a refused growth.
    pub fn refused(&self) -> u64
        ensures { result ≡ refused_at self.now }
    {
        self.refused
    }
}

impl Sink for MemSink {
    ghost use Rattle.std.specs.Prelude.{◌≤◌, Some, length, IfOk};
    ghost use Rattle.outside.specs.Told.{Writes};
    ghost use Rattle.outside.specs.Causes.{HasCause, CountsStalls};
    ghost use Rattle.outside.specs.Memory.{CountsWrite, TakesMost, faults_at, written_to};

    ghost written = { λ s. Some s.bytes.items };

    ghost faults = { λ s. s.faults };

    ghost may_write = { λ before piece result now.
        TakesMost before result now piece × CountsWrite before result now };

    fn write(&mut self, piece: &[u8]) -> Result<usize, Failed>
        ensures bound { IfOk result (λ n. n ≤ length piece.now) }
        ensures bytes { Writes (Some (written_to self.old)) (Some (written_to self.new))
            result piece.now }
        ensures cause { HasCause (faults_at self.old) (faults_at self.new) result }
        ensures stalls { CountsStalls (faults_at self.old) (faults_at self.new) result piece.now }

        // It takes as much as it may, and fails exactly where its number is to fail or where it
        // raises `refused`.
        ensures takes { TakesMost self.old result self.new piece.now }
        ensures counts { CountsWrite self.old result self.new }
    {
        if counts_failing(&mut self.calls, &self.failing) {
            self.faults = self.faults.saturating_add(1);
            return Err(Failed);
        }
        let n = piece.len().min(self.most);
        if self.bytes.extend_from_slice(&piece[..n]).is_err() {
            self.refused = self.refused.saturating_add(1);
            self.faults = self.faults.saturating_add(1);
            return Err(Failed);
        }
        Ok(n)
    }
}
