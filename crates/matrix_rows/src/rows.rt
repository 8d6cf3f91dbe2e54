//! The rows of a matrix as a file has them, of any size that memory takes.
ghost use Rattle.std.specs.Prelude.{◌≡◌, ℕ, ◌*◌, ◌<◌, ◌≤◌, length, slice_index, vec_len};
ghost use Rattle.leray_conley.specs.Tables.{entry};
ghost use Rattle.matrix_rows.specs.Rows.{AreRows};

use leray_conley::Matrix;
use std::marker::Model;

/// The rows of a matrix over the field of `P` elements, seen as a number of rows, a number of
/// columns and the list of the entries by rows. The entries are below `P`.
#[derive(Drop)]
pub struct MatrixRows<const P: u16> {
    rows: u32,
    columns: u32,
    entries: Vec<u16>,
}

impl<const P: u16> Model for MatrixRows<P> {
    ghost use Rattle.leray_conley.specs.Tables.{Table};
    ghost use Rattle.matrix_rows.specs.Rows.{AreRows};

    ghost Value = { Table };

    ghost view = { λ m. record { rows = m.rows; columns = m.columns; entries = m.entries.items } };

    ghost invariant = { λ m. AreRows P (record
        { rows = m.rows; columns = m.columns; entries = m.entries.items }) };
}

impl<const P: u16> MatrixRows<P> {
    /// The rows with these entries, row after row.
    pub fn new(rows: u32, columns: u32, entries: Vec<u16>) -> MatrixRows<P>
        requires count { vec_len entries ≡ rows * columns }
        requires below { (k : ℕ) → k < vec_len entries → slice_index entries.items k < P }
        ensures rows { result.rows ≡ rows }
        ensures columns { result.columns ≡ columns }
        ensures entries { result.entries ≡ entries.items }
    {
        MatrixRows {
            rows,
            columns,
            entries,
        }
    }

    /// The number of rows.
    pub fn rows(&self) -> u32
        ensures value { result ≡ self.now.rows }
        ensures table { AreRows P self.now }
    {
        self.rows
    }

    /// The number of columns.
    pub fn columns(&self) -> u32
        ensures value { result ≡ self.now.columns }
        ensures table { AreRows P self.now }
    {
        self.columns
    }

    /// The entry in row `i` and column `j`.
    pub fn entry(&self, i: u32, j: u32) -> u16
        requires row { i < self.now.rows }
        requires column { j < self.now.columns }
        ensures value { result ≡ entry self.now i j }
        ensures below { result < P }
    {
        self.entries[i as usize * self.columns as usize + j as usize]
    }

    /// The matrix, where it is not too large for one.
    pub fn into_matrix(self) -> Matrix<P>
        requires bound { self.rows * self.columns ≤ 16777216 }
        ensures rows { result.rows ≡ self.entry.rows }
        ensures columns { result.columns ≡ self.entry.columns }
        ensures entries { result.entries ≡ self.entry.entries }
    {
        Matrix::new(self.rows, self.columns, self.entries)
    }
}
