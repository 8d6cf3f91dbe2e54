//! Ranks and vectors of the kernel.
ghost use Rattle.std.specs.Prelude.{◌≡◌, ℕ, IfOk, MatchOption};
ghost use Rattle.leray_conley.specs.Kernels.{IsKernelVector, IsKilled};
ghost use Rattle.leray_conley.specs.Products.{transpose};
ghost use Rattle.leray_conley.specs.Ranks.{IsRank};
ghost use Rattle.leray_conley.specs.Tables.{entry};

use crate::matrix::Matrix;
use field_mod::Field;
use std::alloc::{AllocError, Global};

impl<const P: u16> Matrix<P> {
    /// The rank: the number of vectors in a basis of the image.
    pub fn rank(&self, alloc: Global, f: Field<P>) -> Result<u32, AllocError>
        ensures { IfOk result (IsRank P self.now.rows self.now.columns (entry self.now)) }
    {
        let rank = self.reduce(alloc, f, 0)?.rows.len();
        let columns = self.columns() as usize;
        prove!(rank <= columns);
        Ok(rank as u32)
    }

    /// A vector that is not 0 and that the matrix sends to 0; `None` exactly where there is none.
    pub fn kernel_vector(&self, alloc: Global, f: Field<P>) -> Result<Option<Vec<u16>>, AllocError>
        ensures { IfOk result (λ o. MatchOption o
            ((v : ℕ → ℕ) → IsKilled P self.now.rows self.now.columns (entry self.now) v → ⊥)
            (λ v. IsKernelVector P self.now.rows self.now.columns (entry self.now) v.items)) }
    {
        let echelon = self.reduce(alloc, f, 0)?;
        let columns = self.columns() as usize;
        let free = echelon.free_columns(alloc, columns)?;
        if free.is_empty() {
            return Ok(None);
        }
        Ok(Some(echelon.kernel_column(alloc, f, columns, free[0])?))
    }

    /// The same for the transposed matrix: a vector that is not 0 and whose product with each
    /// column is 0.
    pub fn left_vector(&self, alloc: Global, f: Field<P>) -> Result<Option<Vec<u16>>, AllocError>
        ensures { IfOk result (λ o. MatchOption o
            ((v : ℕ → ℕ) → IsKilled P self.now.columns self.now.rows (transpose (entry self.now)) v
            → ⊥)
            (λ v. IsKernelVector P self.now.columns self.now.rows (transpose (entry self.now))
            v.items)) }
    {
        self.transposed(alloc)?.kernel_vector(alloc, f)
    }
}
