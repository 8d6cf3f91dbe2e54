//! The real files and streams. They tell no contents, and count each error: the trusted edge.
ghost use Rattle.std.specs.Prelude.{◌≡◌, ◌≤◌, ◌<◌, ◌^◌, ℕ, List, None, nat_lt, if◌then◌else◌, length, take, IfOk, OnOk};
ghost use Rattle.std.specs.Io.KnownBytes.{Appends, Consumes, IsAtEnd, WriteAppends};
ghost use Rattle.outside.specs.Causes.{HasCause, CountsBytes, CountsStalls, CountsShort, more, counted};
ghost use Rattle.outside.specs.Real.{FillsFrom, IsFilledFrom, ReadsGoOn, Tells};
ghost use Rattle.outside.specs.Told.{Writes};

use crate::errors::Errors;
use crate::{Failed, Files, Sink};
use std::fs::File;
use std::io::{Read, Seek, SeekFrom, Write};

/// The files of a runtime. A read error counts for every name, and so does a write error.
#[derive(Drop)]
pub struct RealFiles<R: std::rt::Files + Drop> {
    rt: R,
    read_faults: Errors,
    write_faults: Errors,
    given: u64,
}

impl<R: std::rt::Files + Drop> RealFiles<R> {
    /// All counts begin at 0. Takes no memory.
    pub fn of(rt: R) -> Self
        ensures read_faults { (⟦<RealFiles<R> as Files>⟧.seen result).read_faults ≡ (λ _. 0) }
        ensures write_faults { (⟦<RealFiles<R> as Files>⟧.seen result).write_faults ≡ (λ _. 0) }
        ensures given { (⟦<RealFiles<R> as Files>⟧.seen result).given ≡ 0 }
    {
        RealFiles {
            rt,
            read_faults: Errors::none(),
            write_faults: Errors::none(),
            given: 0,
        }
    }
}

impl<R: std::rt::Files + Drop> Files for RealFiles<R> {
    ghost seen = { λ m. record {
      holds = None;
      read_faults = λ _. m.read_faults;
      write_faults = λ _. m.write_faults;
      given = m.given;
    } };

    // Each error of the system counts once, and nothing else does. Where the files that the runtime
    // opens tell their bytes, the answer has those from the place on.
    fn read_at(&mut self, name: &str, at: u64, buf: &mut [u8]) -> Result<usize, Failed>
        requires { at ≤ 2 ^ 30 }
        ensures bound { IfOk result (λ n. n ≤ length buf.new) }
        ensures cause { HasCause self.old.read_faults self.new.read_faults result }
        ensures given { CountsBytes self.old.given result self.new.given }
        ensures counts { self.new.read_faults ≡ counted self.old.read_faults result }
        ensures kept { self.new.write_faults ≡ self.old.write_faults }
        ensures told { (all : List ℕ)
            → ReadsGoOn R.File.remaining R.File.stream_position R.File.stream_bytes
            → Tells R.File.stream_position R.File.stream_bytes all
            → IfOk result (λ n. FillsFrom all at n buf.new) }
    {
        let mut file = self.read_faults.hear(File::open(&self.rt, name))?;
        let n = fill(&mut file, at, buf, &mut self.read_faults)?;
        self.given = self.given.saturating_add(n as u64);
        Ok(n)
    }

    fn append(&mut self, name: &str, piece: &[u8], first: bool) -> Result<(), Failed>
        ensures cause { HasCause self.old.write_faults self.new.write_faults result }
        ensures given { self.new.given ≡ self.old.given }
        ensures counts { self.new.write_faults ≡ counted self.old.write_faults result }
        ensures kept { self.new.read_faults ≡ self.old.read_faults }
    {
        let opened = if first {
            File::create(&self.rt, name)
        } else {
            File::options()
                .append(true)
                .create(true)
                .open(&self.rt, name)
        };
        let mut file = self.write_faults.hear(opened)?;
        pour(&mut file, piece, &mut self.write_faults)
    }
}

// Fills a front of the buffer with what stands from a place on; less than all of it only at the
// end, and a failure only where the system answered an error.
fn fill<T: Read + Seek>(
    file: &mut T,
    at: u64,
    buf: &mut [u8],
    errors: &mut Errors,
) -> Result<usize, Failed>
    ensures bound { IfOk result (λ n. n ≤ length buf.new) }
    ensures bytes { ReadsGoOn T.remaining T.stream_position T.stream_bytes → IfOk result
        (λ n. IsFilledFrom (T.stream_position file.old) (T.stream_bytes file.old) at n buf.new) }
    ensures counts { errors.new ≡ counted errors.old result }
    ensures cause { HasCause errors.old errors.new result }
{
    errors.hear(file.seek(SeekFrom::Start(at)))?;
    fill_front(file, buf, errors)
}

// Fills a front of the buffer with what comes next; less than all of it only at the end, and a
// failure only where the system answered an error.
fn fill_front<T: Read>(file: &mut T, buf: &mut [u8], errors: &mut Errors) -> Result<usize, Failed>
    ensures bound { IfOk result (λ n. n ≤ length buf.new) }
    ensures bytes { IfOk result (λ n. Consumes (T.remaining file.old) (T.remaining file.new)
        (take n buf.new)) }
    ensures end { IfOk result (λ n. n < length buf.new → IsAtEnd (T.remaining file.new)) }
    ensures counts { errors.new ≡ counted errors.old result }
    ensures cause { HasCause errors.old errors.new result }
{
    let mut filled = 0;
    while filled < buf.len() {
        let n = errors.hear(file.read(&mut buf[filled..]))?;
        if n == 0 {
            return Ok(filled);
        }
        filled += n;
    }
    Ok(filled)
}

// Writes all of a piece. A failure comes only where the system answered an error, or took nothing.
fn pour<T: Write>(file: &mut T, piece: &[u8], errors: &mut Errors) -> Result<(), Failed>
    ensures bytes { OnOk result (Appends (T.contents file.old) (T.contents file.new) piece.now) }
    ensures counts { errors.new ≡ counted errors.old result }
    ensures cause { HasCause errors.old errors.new result }
{
    if pour_front(file, piece, errors) < piece.len() {
        return Err(Failed);
    }
    Ok(())
}

// Writes a piece as far as that goes, and answers how far: to its end, but where the system
// answered an error, or took nothing.
fn pour_front<T: Write>(stream: &mut T, piece: &[u8], errors: &mut Errors) -> usize
    ensures bound { result ≤ length piece.now }
    ensures bytes { Appends (T.contents stream.old) (T.contents stream.new)
        (take result piece.now) }
    ensures counts { errors.new
        ≡ (if nat_lt result (length piece.now) then more errors.old 1 else errors.old) }
    ensures later { errors.old ≤ errors.new }
{
    let mut sent = 0;
    while sent < piece.len() {
        match errors.hear_write(stream.write(&piece[sent..])) {
            Ok(n) => sent += n,
            Err(_) => return sent,
        }
    }
    sent
}

/// A stream.
#[derive(Drop)]
pub struct RealSink<W: Write + Drop> {
    inner: W,
    faults: Errors,
}

impl<W: Write + Drop> RealSink<W> {
    /// The count of faults begins at 0. Takes no memory.
    pub fn of(inner: W) -> Self
        ensures { ⟦<RealSink<W> as Sink>⟧.faults result ≡ 0 }
    {
        RealSink {
            inner,
            faults: Errors::none(),
        }
    }
}

impl<W: Write + Drop> Sink for RealSink<W> {
    ghost written = { λ _. None };

    ghost faults = { λ s. s.faults };

    // What it answers is appended to the stream, where that tells its bytes. After an error it is
    // what was written before, and one fault counts.
    fn write(&mut self, piece: &[u8]) -> Result<usize, Failed>
        ensures bound { IfOk result (λ n. n ≤ length piece.now) }
        ensures bytes { Writes None None result piece.now }
        ensures cause { HasCause self.old.faults self.new.faults result }
        ensures stalls { CountsStalls self.old.faults self.new.faults result piece.now }
        ensures counts { CountsShort self.old.faults result piece.now self.new.faults }
        ensures inner { WriteAppends (W.contents self.old.inner) (W.contents self.new.inner)
            result piece.now }
    {
        let sent = pour_front(&mut self.inner, piece, &mut self.faults);
        if sent == 0 && !piece.is_empty() {
            return Err(Failed);
        }
        Ok(sent)
    }
}
