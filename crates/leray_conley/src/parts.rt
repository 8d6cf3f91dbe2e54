//! Matrices made of parts of others.
ghost use Rattle.std.specs.Prelude.{◌≡◌, ℕ, ◌+◌, ◌*◌, ◌^◌, ◌<◌, ◌≤◌, length, slice_index, IfOk};
ghost use Rattle.leray_conley.specs.Splitting.{beside};
ghost use Rattle.leray_conley.specs.Tables.{HasEntries, entry};

use crate::matrix::Matrix;
use std::alloc::{AllocError, Global};

impl<const P: u16> Matrix<P> {
    /// The first rows.
    pub(crate) fn top_rows(&self, alloc: Global, rows: u32) -> Result<Matrix<P>, AllocError>
        requires { rows ≤ self.now.rows }
        ensures { IfOk result (HasEntries rows self.now.columns (entry self.now)) }
    {
        let count = (rows * self.columns) as usize;
        let entries = Vec::from_slice(alloc, &self.entries[..count])?;
        Ok(Matrix::new(rows, self.columns, entries))
    }

    /// The columns at the given places.
    pub(crate) fn columns_at(
        &self,
        alloc: Global,
        places: &[usize],
    ) -> Result<Matrix<P>, AllocError>
        requires within { (k : ℕ) → k < length places.now → slice_index places.now k
            < self.now.columns }
        requires few { length places.now ≤ self.now.columns }
        ensures { IfOk result (HasEntries self.now.rows (length places.now)
            (λ i k. entry self.now i (slice_index places.now k))) }
    {
        let columns = self.columns();
        let width = places.len() as u32;
        let count = self.rows() * width;
        let mut entries = Vec::with_capacity(alloc, count as usize)?;
        for k in 0..count {
            entries.push(self.entry(k / width, places[(k % width) as usize] as u32))?;
        }
        Ok(Matrix::new(self.rows(), width, entries))
    }

    /// An entry of this matrix and another side by side.
    fn beside_entry(&self, other: &Matrix<P>, i: u32, j: u32) -> u16
        requires rows { self.now.rows ≡ other.now.rows }
        requires row { i < self.now.rows }
        requires column { j < self.now.columns + other.now.columns }
        ensures below { result < P }
        ensures value { result ≡ beside self.now.columns (entry self.now) (entry other.now) i j }
    {
        if j < self.columns() {
            self.entry(i, j)
        } else {
            other.entry(i, j - self.columns())
        }
    }

    /// This matrix and another side by side.
    pub(crate) fn side_by_side(
        &self,
        alloc: Global,
        other: &Matrix<P>,
    ) -> Result<Matrix<P>, AllocError>
        requires rows { self.now.rows ≡ other.now.rows }
        requires wide { self.now.columns + other.now.columns < 2 ^ 32 }
        requires bound { self.now.rows * (self.now.columns + other.now.columns) ≤ 16777216 }
        ensures { IfOk result (HasEntries self.now.rows (self.now.columns + other.now.columns)
            (beside self.now.columns (entry self.now) (entry other.now))) }
    {
        let columns = self.columns() + other.columns();
        let count = self.rows() * columns;
        let mut entries = Vec::with_capacity(alloc, count as usize)?;
        for k in 0..count {
            entries.push(self.beside_entry(other, k / columns, k % columns))?;
        }
        Ok(Matrix::new(self.rows(), columns, entries))
    }
}
