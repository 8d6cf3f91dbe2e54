//! Inverses, by elimination beside the identity.
ghost use Rattle.std.specs.Prelude.{◌≡◌, ℕ, ◌+◌, ◌*◌, ◌<◌, ◌≤◌, length, slice_index, IfOk, IfErr};
ghost use Rattle.leray_conley.specs.Echelons.{HasEchelon, IsRightBlock, cell};
ghost use Rattle.leray_conley.specs.Inverses.{IsInverse};
ghost use Rattle.leray_conley.specs.Faults.{IsFaultOf};
ghost use Rattle.leray_conley.specs.Kernels.{IsKilled};
ghost use Rattle.leray_conley.specs.Tables.{entry};

use crate::echelon::Echelon;
use crate::matrix::Matrix;
use field_mod::Field;
use std::alloc::{AllocError, Global};
use thiserror::Error;

/// Why a matrix has no inverse, or none was found.
#[derive(Debug, Drop, Error)]
pub enum InverseFault {
    /// The matrix sends this vector to 0, and the vector is not 0.
    #[error("the matrix sends a vector that is not 0 to 0")]
    Singular { kernel: Vec<u16> },
    /// Memory ran out.
    #[error("out of memory")]
    NoMemory,
}

/// The entries beyond column `size` of rows in reduced form, in the order of their pivots.
fn right_block<const P: u16>(
    alloc: Global,
    echelon: &Echelon<P>,
    size: u32,
) -> Result<Matrix<P>, AllocError>
    requires bound { size * size ≤ 16777216 }
    requires form { HasEchelon P (size + size) echelon.now.rows.items echelon.now.pivots.items }
    requires pivots { (j : ℕ) → j < size → (k : ℕ) × (k < length echelon.now.rows.items)
        × (slice_index echelon.now.pivots.items k ≡ j) }
    ensures rows { IfOk result (λ m. m.rows ≡ size) }
    ensures columns { IfOk result (λ m. m.columns ≡ size) }
    ensures block { IfOk result (λ m. IsRightBlock size (length echelon.now.rows.items)
        (cell echelon.now.rows.items)
        (slice_index echelon.now.pivots.items) (entry m) size) }
{
    let width = size as usize;
    let mut entries = Vec::with_capacity(alloc, (size * size) as usize)?;
    for j in 0..width {
        match echelon.row_of(j) {
            Some(k) => entries.extend_from_slice(echelon.rows[k].after(width))?,
            None => unreachable!(),
        }
    }
    Ok(Matrix::new(size, size, entries))
}

impl From<AllocError> for InverseFault {
    ghost use Rattle.std.specs.Prelude.{◌≡◌};
    ghost use Rattle.leray_conley.specs.declared.inverse.InverseFault.TheVariants.{NoMemory};

    ghost from_gives = { λ _ e. e ≡ NoMemory };

    fn from(_e: AllocError) -> InverseFault {
        InverseFault::NoMemory
    }
}

impl<const P: u16> Matrix<P> {
    /// The inverse of a square matrix; `Singular` exactly where it has none, with a vector that is
    /// not 0 and that it sends to 0.
    pub fn inverse(&self, alloc: Global, f: Field<P>) -> Result<Matrix<P>, InverseFault>
        requires square { self.now.rows ≡ self.now.columns }
        ensures rows { IfOk result (λ m. m.rows ≡ self.now.rows) }
        ensures columns { IfOk result (λ m. m.columns ≡ self.now.rows) }
        ensures inverse { IfOk result (λ m. IsInverse P self.now.rows (entry self.now) (entry m)) }
        ensures fault { IfErr result (IsFaultOf P self.now.rows (entry self.now)) }
    {
        if let Some(kernel) = self.kernel_vector(alloc, f)? {
            return Err(InverseFault::Singular { kernel });
        }
        let size = self.rows();
        let echelon = self.reduce(alloc, f, size)?;
        Ok(right_block(alloc, &echelon, size)?)
    }

    /// The inverse of a square matrix that sends no vector but 0 to 0.
    pub(crate) fn known_inverse(&self, alloc: Global, f: Field<P>) -> Result<Matrix<P>, AllocError>
        requires square { self.now.rows ≡ self.now.columns }
        requires unkilled { (v : ℕ → ℕ) → IsKilled P self.now.rows self.now.rows (entry self.now) v
            → ⊥ }
        ensures rows { IfOk result (λ m. m.rows ≡ self.now.rows) }
        ensures columns { IfOk result (λ m. m.columns ≡ self.now.rows) }
        ensures inverse { IfOk result (λ m. IsInverse P self.now.rows (entry self.now) (entry m)) }
    {
        match self.inverse(alloc, f) {
            Ok(inverse) => Ok(inverse),
            Err(InverseFault::NoMemory) => Err(AllocError),
            Err(InverseFault::Singular { .. }) => unreachable!(),
        }
    }
}
