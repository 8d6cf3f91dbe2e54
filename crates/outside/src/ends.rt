//! The outside as the program sees it: traits whose ghost members say what an object tells and
//! counts.
ghost use Rattle.std.specs.Prelude.{◌≡◌, ◌≤◌, ◌^◌, List, ℕ, Option, length, ◌++◌, IfOk, OnOk, OnErr, IfSome, Result};
ghost use Rattle.outside.specs.Told.{Told, Writes};
ghost use Rattle.outside.specs.Causes.{HasCause, NoneFell, CountsBytes, CountsStalls};
ghost use Rattle.outside.specs.Disk.{Disk, content, kept, most_piece, Puts, MayPut, ReadsFrom};
ghost use Rattle.outside.specs.Seen.{Seen};
ghost use Rattle.outside.specs.declared.ends.Failed.{Failed};

use thiserror::Error;

/// A read or a write failed, and was counted.
#[derive(Clone, Copy, Debug, PartialEq, Eq, Error)]
#[error("a read or a write failed")]
pub struct Failed;

/// Files by name. An object may tell what they hold; where it does not tell before a call, it does
/// not after it. No count of faults falls in a call, and a call says nothing else of the counts of
/// another name.
pub trait Files {
    /// What the files tell and count: what they hold, where told; how often reads failed, and
    /// writes, for each name; and how many bytes the reads gave, up to `2 ^ 64 - 1`.
    ghost seen: { Self → Seen };

    /// Fills a front of `buf` with the file's bytes from `at` on, which is at most `2 ^ 30`, and
    /// answers how many. An answer of 0 comes only at the end of the file or for an empty `buf`. A
    /// name that is not held fails, or reads as an empty file. `Failed` comes only where
    /// `read_faults` of the name rose. Of the rest of `buf` nothing is said.
    fn read_at(&mut self, name: &str, at: u64, buf: &mut [u8]) -> Result<usize, Failed>
        requires { at ≤ 2 ^ 30 }
        ensures bound { IfOk result (λ n. n ≤ length buf.new) }
        ensures bytes { IfOk result (λ n. IfSome (seen self.old).holds
            (λ disk. ReadsFrom (content disk name.now) at n buf.new)) }
        ensures holds { (seen self.new).holds ≡ (seen self.old).holds }
        ensures cause { HasCause ((seen self.old).read_faults name.now)
            ((seen self.new).read_faults name.now) result }
        ensures reads { NoneFell (seen self.old).read_faults (seen self.new).read_faults }
        ensures writes { NoneFell (seen self.old).write_faults (seen self.new).write_faults }
        ensures given { CountsBytes (seen self.old).given result (seen self.new).given };

    /// Adds a piece of at most 65,536 bytes at the end of a file, which is made where it is not
    /// there, or makes the file anew with the piece. `Failed` comes only where `write_faults` of
    /// the name rose; the file then holds what it held, or what the call would have kept of it
    /// followed by a prefix of the piece. All other files stay in any case.
    fn append(&mut self, name: &str, piece: &[u8], first: bool) -> Result<(), Failed>
        requires piece { length piece.now ≤ most_piece }
        ensures put { OnOk result (Told (seen self.old).holds (seen self.new).holds
            (λ before now. Puts name.now (kept first before name.now ++ piece.now) before now)) }
        ensures failed { OnErr result (Told (seen self.old).holds (seen self.new).holds
            (MayPut first name.now piece.now)) }
        ensures cause { HasCause ((seen self.old).write_faults name.now)
            ((seen self.new).write_faults name.now) result }
        ensures reads { NoneFell (seen self.old).read_faults (seen self.new).read_faults }
        ensures writes { NoneFell (seen self.old).write_faults (seen self.new).write_faults }
        ensures given { (seen self.new).given ≡ (seen self.old).given };
}

/// A sink of bytes. An object may tell what was written; where it does not tell before a write, it
/// does not after it.
pub trait Sink {
    /// What was written, where told.
    ghost written: { Self → Option (List ℕ) };

    /// How often writes failed.
    ghost faults: { Self → ℕ };

    /// Which writes may happen: the sink before, the piece, the answer, and the sink after.
    ghost may_write: { Self → List ℕ → Result ℕ Failed → Self → Type 0 } = { λ _ _ _ _. Unit };

    /// Appends a prefix of the piece and answers its length. `Failed` comes only where `faults`
    /// rose, and then nothing was written. A 0 for a piece that is not empty counts as a fault.
    fn write(&mut self, piece: &[u8]) -> Result<usize, Failed>
        ensures bound { IfOk result (λ n. n ≤ length piece.now) }
        ensures bytes { Writes (written self.old) (written self.new) result piece.now }
        ensures cause { HasCause (faults self.old) (faults self.new) result }
        ensures stalls { CountsStalls (faults self.old) (faults self.new) result piece.now }
        ensures may_happen { may_write self.old piece.now result self.new };
}

/// Told when a worker begins a block and when it has ended it. The calls promise nothing and take
/// no memory.
pub trait Gate {
    fn enter(&self, block: u32);

    fn leave(&self, block: u32);
}
