//! Products and transposes.
ghost use Rattle.std.specs.Prelude.{◌≡◌, ℕ, ◌*◌, ◌%◌, ◌<◌, ◌≤◌, length, slice_index, IfOk};
ghost use Rattle.field_mod.specs.Sums.{total};
ghost use Rattle.leray_conley.specs.Products.{product, transpose};
ghost use Rattle.leray_conley.specs.Tables.{HasEntries, entry};

use crate::matrix::Matrix;
use field_mod::Field;
use std::alloc::{AllocError, Global};

/// The sum of the products of the numbers of two rows.
fn dot(a: &[u16], b: &[u16]) -> u64
    requires same { length a.now ≡ length b.now }
    requires bound { length a.now ≤ 16777216 }
    ensures { result ≡ total (length a.now) (λ l. slice_index a.now l * slice_index b.now l) }
{
    let mut sum = 0u64;
    for i in 0..a.len() {
        sum += u64::from(u32::from(a[i]) * u32::from(b[i]));
    }
    sum
}

impl<const P: u16> Matrix<P> {
    /// The matrix with rows and columns exchanged.
    pub(crate) fn transposed(&self, alloc: Global) -> Result<Matrix<P>, AllocError>
        ensures { IfOk result (HasEntries self.now.columns self.now.rows
            (transpose (entry self.now))) }
    {
        let columns = self.rows();
        let count = self.columns() * columns;
        let mut entries = Vec::with_capacity(alloc, count as usize)?;
        for k in 0..count {
            entries.push(self.entry(k % columns, k / columns))?;
        }
        Ok(Matrix::new(self.columns(), columns, entries))
    }

    /// The product of row `i` and row `j` of another matrix.
    fn row_product(&self, i: u32, other: &Matrix<P>, j: u32) -> u16
        requires prime { 0 < P }
        requires row { i < self.now.rows }
        requires other_row { j < other.now.rows }
        requires fits { self.now.columns ≡ other.now.columns }
        ensures below { result < P }
        ensures value { result ≡ product self.now.columns (entry self.now)
            (transpose (entry other.now)) i j % P }
    {
        (dot(self.row(i), other.row(j)) % u64::from(P)) as u16
    }

    /// The product of this matrix and the transpose of another.
    fn times_transposed(&self, alloc: Global, other: &Matrix<P>) -> Result<Matrix<P>, AllocError>
        requires prime { 0 < P }
        requires fits { self.now.columns ≡ other.now.columns }
        requires bound { self.now.rows * other.now.rows ≤ 16777216 }
        ensures { IfOk result
            (HasEntries self.now.rows other.now.rows
            (λ i j. product self.now.columns (entry self.now) (transpose (entry other.now)) i j
            % P)) }
    {
        let columns = other.rows();
        let count = self.rows() * columns;
        let mut entries = Vec::with_capacity(alloc, count as usize)?;
        for k in 0..count {
            entries.push(self.row_product(k / columns, other, k % columns))?;
        }
        Ok(Matrix::new(self.rows(), columns, entries))
    }

    /// The product of this matrix and another, which has as many rows as this one has columns; the
    /// product has at most 16,777,216 entries.
    pub fn times(
        &self,
        alloc: Global,
        _f: Field<P>,
        other: &Matrix<P>,
    ) -> Result<Matrix<P>, AllocError>
        requires fits { self.now.columns ≡ other.now.rows }
        requires bound { self.now.rows * other.now.columns ≤ 16777216 }
        ensures { IfOk result
            (HasEntries self.now.rows other.now.columns
            (λ i j. product self.now.columns (entry self.now) (entry other.now) i j % P)) }
    {
        let turned = other.transposed(alloc)?;
        self.times_transposed(alloc, &turned)
    }
}
