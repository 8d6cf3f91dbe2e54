//! Files and a sink that never fail, and a gate that is always open.
ghost use Rattle.std.specs.Prelude.{◌≡◌, Some, None, string_bytes, false, IsOk, if◌then◌else◌};
ghost use Rattle.outside.specs.Disk.{held};

use crate::memory::{copy_from, place_of};
use crate::{Failed, Files, Gate, Sink};

/// Files that never fail. They tell their contents until the first append; an append drops its
/// piece, and from then on they tell nothing. A name that is not held reads as an empty file.
#[derive(Drop)]
pub struct QuietFiles {
    files: Vec<(String, Vec<u8>)>,
    tells: bool,
    given: u64,
}

impl QuietFiles {
    /// Files with distinct names. Takes no memory.
    pub fn of(files: Vec<(String, Vec<u8>)>) -> Self
        ensures holds { (⟦<QuietFiles as Files>⟧.seen result).holds
            ≡ Some (held string_bytes (λ b. b.items) files.items) }
        ensures given { (⟦<QuietFiles as Files>⟧.seen result).given ≡ 0 }
    {
        QuietFiles {
            files,
            tells: true,
            given: 0,
        }
    }
}

impl Files for QuietFiles {
    ghost seen = { λ m. record {
      holds = if m.tells then Some (held string_bytes (λ b. b.items) m.files.items) else None;
      read_faults = λ _. 0;
      write_faults = λ _. 0;
      given = m.given;
    } };

    fn read_at(&mut self, name: &str, at: u64, buf: &mut [u8]) -> Result<usize, Failed> {
        let n = match place_of(&self.files, name) {
            Some(place) => copy_from(&self.files[place].1, at as usize, buf),
            None => 0,
        };
        self.given = self.given.saturating_add(n as u64);
        Ok(n)
    }

    fn append(&mut self, _name: &str, _piece: &[u8], _first: bool) -> Result<(), Failed>
        ensures sure { IsOk result }
        ensures untold { self.new.tells ≡ false }
        ensures given { self.new.given ≡ self.old.given }
    {
        self.tells = false;
        Ok(())
    }
}

/// A sink that never fails. It drops what it takes and tells nothing.
#[derive(Clone, Copy, Debug, Default)]
pub struct QuietSink;

impl QuietSink {
    /// Takes no memory.
    pub fn new() -> Self {
        QuietSink
    }
}

impl Sink for QuietSink {
    ghost written = { λ _. None };

    ghost faults = { λ _. 0 };

    fn write(&mut self, piece: &[u8]) -> Result<usize, Failed> {
        Ok(piece.len())
    }
}

/// A gate that is always open.
#[derive(Clone, Copy, Debug, Default)]
pub struct OpenGate;

impl Gate for OpenGate {
    fn enter(&self, _block: u32) {}

    fn leave(&self, _block: u32) {}
}
