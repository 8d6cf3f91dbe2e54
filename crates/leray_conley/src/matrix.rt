//! Matrices over a prime field: their sizes, entries, traces and products.
ghost use Rattle.std.specs.Prelude.{◌≡◌, ℕ, ◌+◌, ◌*◌, ◌%◌, ◌<◌, ◌≤◌, length, slice_index, vec_len};
ghost use Rattle.leray_conley.specs.Tables.{IsTable, entry};
ghost use Rattle.leray_conley.specs.Products.{trace};

use field_mod::Field;
use std::marker::Model;

/// A matrix over the field of `P` elements, seen as a number of rows, a number of columns and the
/// list of its entries by rows. The entries are below `P`, and there are at most 16,777,216 of
/// them.
#[derive(Drop)]
pub struct Matrix<const P: u16> {
    pub(crate) rows: u32,
    pub(crate) columns: u32,
    pub(crate) entries: Vec<u16>,
}

impl<const P: u16> Model for Matrix<P> {
    ghost use Rattle.leray_conley.specs.Tables.{Table, IsTable};

    ghost Value = { Table };

    ghost view = { λ m. record { rows = m.rows; columns = m.columns; entries = m.entries.items } };

    ghost invariant = { λ m. IsTable P (record
        { rows = m.rows; columns = m.columns; entries = m.entries.items }) };
}

impl<const P: u16> Matrix<P> {
    /// The matrix with these entries, row after row.
    pub fn new(rows: u32, columns: u32, entries: Vec<u16>) -> Matrix<P>
        requires count { vec_len entries ≡ rows * columns }
        requires bound { rows * columns ≤ 16777216 }
        requires below { (k : ℕ) → k < vec_len entries → slice_index entries.items k < P }
        ensures rows { result.rows ≡ rows }
        ensures columns { result.columns ≡ columns }
        ensures entries { result.entries ≡ entries.items }
    {
        Matrix {
            rows,
            columns,
            entries,
        }
    }

    /// The number of rows.
    pub fn rows(&self) -> u32
        ensures value { result ≡ self.now.rows }
        ensures table { IsTable P self.now }
    {
        self.rows
    }

    /// The number of columns.
    pub fn columns(&self) -> u32
        ensures value { result ≡ self.now.columns }
        ensures table { IsTable P self.now }
    {
        self.columns
    }

    /// The entry in row `i` and column `j`.
    pub fn entry(&self, i: u32, j: u32) -> u16
        requires row { i < self.now.rows }
        requires column { j < self.now.columns }
        ensures value { result ≡ entry self.now i j }
        ensures below { result < P }
    {
        self.entries[(i * self.columns + j) as usize]
    }

    /// The sum of the entries on the diagonal of a square matrix.
    pub fn trace(&self, f: Field<P>) -> u16
        requires square { self.now.rows ≡ self.now.columns }
        ensures below { result < P }
        ensures value { result ≡ trace self.now.rows (entry self.now) % P }
    {
        let mut sum = 0;
        for i in 0..self.rows {
            sum = f.add(sum, self.entry(i, i));
        }
        sum
    }

    /// The entries of row `i`.
    pub(crate) fn row(&self, i: u32) -> &[u16]
        requires { i < self.now.rows }
        ensures len { length result.now ≡ self.now.columns }
        ensures bound { length result.now ≤ 16777216 }
        ensures value { (j : ℕ) → j < self.now.columns → slice_index result.now j
            ≡ entry self.now i j }
        ensures below { (j : ℕ) → j < self.now.columns → slice_index result.now j < P }
    {
        let start = (i * self.columns) as usize;
        let end = start + self.columns as usize;
        &self.entries[start..end]
    }
}
