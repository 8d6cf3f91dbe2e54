//! Rows of numbers below `P`, and the operations of elimination on them.
ghost use Rattle.std.specs.Prelude.{◌≡◌, ℕ, ◌+◌, ◌*◌, ◌%◌, ◌<◌, ◌≤◌, List, [], ◌∷◌, ◌++◌, length, slice_index, IfOk, MatchOption, OnOk};
ghost use Rattle.leray_conley.specs.Rows.{IsLeading};

use std::alloc::{AllocError, Global};
use std::marker::Model;

/// A row, seen as the list of its entries.
#[derive(Drop)]
pub struct Row<const P: u16> {
    entries: Vec<u16>,
}

impl<const P: u16> Model for Row<P> {
    ghost use Rattle.std.specs.Prelude.{ℕ, ◌<◌, List, length, slice_index};

    ghost Value = { List ℕ };

    ghost view = { λ r. r.entries.items };

    ghost invariant = { λ r. (k : ℕ) → k < length r.entries.items → slice_index r.entries.items k
        < P };
}

/// Multiplies a row by a number.
fn multiply<const P: u16>(row: &mut [u16], by: u16)
    requires { 0 < P }
    ensures len { length row.new ≡ length row.old }
    ensures value { (j : ℕ) → j < length row.old → slice_index row.new j
        ≡ (by * slice_index row.old j) % P }
{
    for j in 0..row.len() {
        row[j] = (u32::from(by) * u32::from(row[j]) % u32::from(P)) as u16;
    }
}

/// Adds a multiple of another row.
fn add_multiple<const P: u16>(row: &mut [u16], by: u16, other: &[u16])
    requires prime { 0 < P }
    requires same { length row.old ≡ length other.now }
    ensures len { length row.new ≡ length row.old }
    ensures value { (j : ℕ) → j < length row.old → slice_index row.new j
        ≡ (slice_index row.old j + by * slice_index other.now j) % P }
{
    for j in 0..row.len() {
        let sum = u32::from(row[j]) + u32::from(by) * u32::from(other[j]);
        row[j] = (sum % u32::from(P)) as u16;
    }
}

impl<const P: u16> Row<P> {
    /// The row with these entries.
    pub fn of(alloc: Global, entries: &[u16]) -> Result<Row<P>, AllocError>
        requires { (k : ℕ) → k < length entries.now → slice_index entries.now k < P }
        ensures { IfOk result (λ r. r ≡ entries.now) }
    {
        Ok(Row {
            entries: Vec::from_slice(alloc, entries)?,
        })
    }

    /// Appends an entry.
    pub fn push(&mut self, entry: u16) -> Result<(), AllocError>
        requires { entry < P }
        ensures { OnOk result (self.new ≡ self.old ++ entry ∷ []) }
    {
        self.entries.push(entry)?;
        Ok(())
    }

    /// The number of entries.
    pub fn len(&self) -> usize
        ensures { result ≡ length self.now }
    {
        self.entries.len()
    }

    /// The entry at `j`.
    pub fn entry(&self, j: usize) -> u16
        requires { j < length self.now }
        ensures below { result < P }
        ensures value { result ≡ slice_index self.now j }
    {
        self.entries[j]
    }

    /// The entries from `start` on.
    pub fn after(&self, start: usize) -> &[u16]
        requires { start ≤ length self.now }
        ensures len { length result.now + start ≡ length self.now }
        ensures below { (j : ℕ) → start + j < length self.now → slice_index result.now j < P }
        ensures value { (j : ℕ) → start + j < length self.now → slice_index result.now j
            ≡ slice_index self.now (start + j) }
    {
        &self.entries[start..]
    }

    /// The place of the first entry that is not 0.
    pub fn leading(&self) -> Option<usize>
        ensures { MatchOption result ((j : ℕ) → j < length self.now → slice_index self.now j ≡ 0)
            (IsLeading self.now) }
    {
        for j in 0..self.entries.len() {
            if self.entries[j] != 0 {
                return Some(j);
            }
        }
        None
    }

    /// Multiplies the row by a number.
    pub fn scale(&mut self, by: u16)
        requires { 0 < P }
        ensures len { length self.new ≡ length self.old }
        ensures value { (j : ℕ) → j < length self.old → slice_index self.new j
            ≡ (by * slice_index self.old j) % P }
    {
        multiply::<P>(&mut self.entries, by);
    }

    /// Adds a multiple of another row of the same length.
    pub fn add_scaled(&mut self, by: u16, other: &Row<P>)
        requires prime { 0 < P }
        requires same { length self.old ≡ length other.now }
        ensures len { length self.new ≡ length self.old }
        ensures value { (j : ℕ) → j < length self.old → slice_index self.new j
            ≡ (slice_index self.old j + by * slice_index other.now j) % P }
    {
        add_multiple::<P>(&mut self.entries, by, &other.entries);
    }
}
