//! Files in memory, whose calls fail by number.
ghost use Rattle.std.specs.Prelude.{◌≡◌, ◌<◌, ◌≤◌, ◌^◌, ◌+◌, ◌||◌, Some, None, ◌++◌, IfOk, OnOk, OnErr, slice_get, string_bytes, length, IfSome, IfNone, is_err, is_none, take};
ghost use Rattle.outside.specs.Causes.{HasCause, CountsBytes, more};
ghost use Rattle.outside.specs.Disk.{held, content, kept, Puts, MayPut, ReadsFrom, Tears};
ghost use Rattle.outside.specs.Memory.{disk_of, faults_of, given_of, refused_of, is_among, next_fails, AreNew, CountsCall, FailsToAppend};

use crate::{Failed, Files};
use std::alloc::{AllocError, Global};

/// Files in memory that tell what they hold. Their calls are numbered together from 1, and those
/// whose number is in a list fail.
#[derive(Drop)]
pub struct MemFiles {
    alloc: Global,
    files: Vec<(String, Vec<u8>)>,
    failing: Vec<u64>,
    keeps: u64,
    calls: u64,
    faults: u64,
    refused: u64,
    given: u64,
}

impl MemFiles {
    /// Files with distinct names, and the numbers of the calls that are to fail. A failed append
    /// keeps nothing of its piece. Takes no memory.
    pub fn of(alloc: Global, files: Vec<(String, Vec<u8>)>, failing: Vec<u64>) -> Self
        ensures holds { (⟦<MemFiles as Files>⟧.seen result).holds
            ≡ Some (held string_bytes (λ b. b.items) files.items) }
        ensures new { AreNew failing.items 0 result }
    {
        MemFiles {
            alloc,
            files,
            failing,
            keeps: 0,
            calls: 0,
            faults: 0,
            refused: 0,
            given: 0,
        }
    }

    /// How many appends failed for a refused growth.
    pub fn refused(&self) -> u64
        ensures { result ≡ refused_of self.now }
    {
        self.refused
    }
}

// Counts a call, and says whether its number is among those that are to fail.
pub(crate) fn counts_failing(calls: &mut u64, failing: &[u64]) -> bool
    ensures counts { calls.new ≡ more calls.old 1 }
    ensures value { result ≡ is_among failing.now (calls.old + 1) }
{
    match calls.checked_add(1) {
        Some(number) => {
            *calls = number;
            failing.contains(&number)
        }
        None => false,
    }
}

// The file of that name, by its place.
pub(crate) fn place_of(files: &[(String, Vec<u8>)], name: &str) -> Option<usize>
    ensures found { IfSome result (λ i. (i < length files.now)
        × IfSome (slice_get files.now i) (λ f.
        held string_bytes (λ b. b.items) files.now name.now ≡ Some f.1.items)) }
    ensures first { IfSome result (λ i.
        (held string_bytes (λ b. b.items) (take i files.now) name.now ≡ None)
        × IfSome (slice_get files.now i) (λ f. string_bytes f.0 ≡ name.now)) }
    ensures missing { IfNone result (held string_bytes (λ b. b.items) files.now name.now ≡ None) }
{
    for i in 0..files.len() {
        if files[i].0.as_str() == name {
            return Some(i);
        }
    }
    None
}

impl Files for MemFiles {
    ghost seen = { λ m. record {
      holds = Some (held string_bytes (λ b. b.items) m.files.items);
      read_faults = λ name. m.faults;
      write_faults = λ name. m.faults;
      given = m.given;
    } };

    fn read_at(&mut self, name: &str, at: u64, buf: &mut [u8]) -> Result<usize, Failed>
        requires { at ≤ 2 ^ 30 }
        ensures bound { IfOk result (λ n. n ≤ length buf.new) }
        ensures bytes { IfOk result
            (λ n. ReadsFrom (content (disk_of self.old) name.now) at n buf.new) }
        ensures holds { disk_of self.new ≡ disk_of self.old }
        ensures cause { HasCause (faults_of self.old) (faults_of self.new) result }
        ensures given { CountsBytes (given_of self.old) result (given_of self.new) }

        // It fails exactly where its number is to fail or the name is missing, and each failure
        // counts.
        ensures fails { is_err result
            ≡ (next_fails self.old || is_none (disk_of self.old name.now)) }
        ensures counts { CountsCall self.old result self.new }
        ensures refused { refused_of self.new ≡ refused_of self.old }
    {
        if counts_failing(&mut self.calls, &self.failing) {
            self.faults = self.faults.saturating_add(1);
            return Err(Failed);
        }
        let Some(place) = place_of(&self.files, name) else {
            self.faults = self.faults.saturating_add(1);
            return Err(Failed);
        };
        let n = copy_from(&self.files[place].1, at as usize, buf);
        self.given = self.given.saturating_add(n as u64);
        Ok(n)
    }

    fn append(&mut self, name: &str, piece: &[u8], first: bool) -> Result<(), Failed>
        ensures put { OnOk result (Puts name.now
            (kept first (disk_of self.old) name.now ++ piece.now)
            (disk_of self.old) (disk_of self.new)) }
        ensures failed { OnErr result
            (MayPut first name.now piece.now (disk_of self.old) (disk_of self.new)) }
        ensures cause { HasCause (faults_of self.old) (faults_of self.new) result }
        ensures given { given_of self.new ≡ given_of self.old }

        // It fails exactly where its number is to fail or where it raises `refused`, and each
        // failure counts.
        ensures fails { FailsToAppend self.old result self.new first name.now piece.now }
        ensures counts { CountsCall self.old result self.new }
    {
        if counts_failing(&mut self.calls, &self.failing) {
            self.faults = self.faults.saturating_add(1);
            if tear(self.alloc, &mut self.files, name, piece, first, self.keeps).is_err() {
                self.refused = self.refused.saturating_add(1);
            }
            return Err(Failed);
        }
        if put(self.alloc, &mut self.files, name, piece, first).is_err() {
            self.refused = self.refused.saturating_add(1);
            self.faults = self.faults.saturating_add(1);
            return Err(Failed);
        }
        Ok(())
    }
}

// Leaves so many bytes of a piece whose append fails.
fn tear(
    alloc: Global,
    files: &mut Vec<(String, Vec<u8>)>,
    name: &str,
    piece: &[u8],
    first: bool,
    keeps: u64,
) -> Result<(), AllocError>
    ensures ok { OnOk result (Tears keeps first name.now piece.now
        (held string_bytes (λ b. b.items) files.old.items)
        (held string_bytes (λ b. b.items) files.new.items)) }
    ensures err { OnErr result (held string_bytes (λ b. b.items) files.new.items
        ≡ held string_bytes (λ b. b.items) files.old.items) }
{
    if keeps == 0 {
        return Ok(());
    }
    let taken = piece.len().min(keeps as usize);
    put(alloc, files, name, &piece[..taken], first)
}

// Adds a piece to a file, or makes the file with it.
fn put(
    alloc: Global,
    files: &mut Vec<(String, Vec<u8>)>,
    name: &str,
    piece: &[u8],
    first: bool,
) -> Result<(), AllocError>
    ensures ok { OnOk result (Puts name.now
        (kept first (held string_bytes (λ b. b.items) files.old.items) name.now ++ piece.now)
        (held string_bytes (λ b. b.items) files.old.items)
        (held string_bytes (λ b. b.items) files.new.items)) }
    ensures err { OnErr result (held string_bytes (λ b. b.items) files.new.items
        ≡ held string_bytes (λ b. b.items) files.old.items) }
{
    let Some(place) = place_of(files, name) else {
        let bytes = Vec::from_slice(alloc, piece)?;
        let name = String::from_str(alloc, name)?;
        files.push((name, bytes))?;
        return Ok(());
    };
    if first {
        let bytes = Vec::from_slice(alloc, piece)?;
        files[place].1 = bytes;
        return Ok(());
    }
    files[place].1.extend_from_slice(piece)
}

// Copies what stands from a place on, as far as there is room.
pub(crate) fn copy_from(bytes: &[u8], at: usize, buf: &mut [u8]) -> usize
    ensures bound { result ≤ length buf.new }
    ensures bytes { ReadsFrom bytes.now at result buf.new }
{
    if at >= bytes.len() {
        return 0;
    }
    let n = buf.len().min(bytes.len() - at);
    buf[..n].copy_from_slice(&bytes[at..at + n]);
    n
}
