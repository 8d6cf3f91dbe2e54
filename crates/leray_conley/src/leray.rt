//! The Leray splitting, by the image and the kernel of a high power.
ghost use Rattle.std.specs.Prelude.{◌≡◌, ℕ, ◌+◌, ◌*◌, ◌^◌, ◌<◌, ◌≤◌, length, slice_index, IfOk, OnOk};
ghost use Rattle.field_mod.specs.Modular.{Same};
ghost use Rattle.leray_conley.specs.Echelons.{HasEchelon, cell, kernel_matrix};
ghost use Rattle.leray_conley.specs.LerayData.{HasLeraySizes, splitting_of};
ghost use Rattle.leray_conley.specs.Products.{AreSame};
ghost use Rattle.leray_conley.specs.Splitting.{IsHighPower, IsLeraySplitting, IsSplit};
ghost use Rattle.leray_conley.specs.Tables.{HasEntries, entry};

use crate::echelon::Echelon;
use crate::matrix::Matrix;
use field_mod::Field;
use std::alloc::{AllocError, Global};

/// The Leray splitting of a square matrix of size d: the columns of `image` and of `kernel` are
/// together a basis of the space, the power d sends those of `kernel` to 0, and the matrix maps
/// those of `image` by `reduced`, which is invertible.
#[derive(Drop)]
pub struct Leray<const P: u16> {
    /// A basis of the image, of d rows and r columns.
    pub image: Matrix<P>,
    /// A basis of the kernel, of d rows and d - r columns.
    pub kernel: Matrix<P>,
    /// What the matrix does to the columns of `image`, of size r.
    pub reduced: Matrix<P>,
    /// The inverse of `reduced`.
    pub reduced_inverse: Matrix<P>,
    /// The inverse of `image` and `kernel` side by side.
    pub split_inverse: Matrix<P>,
}

/// The two parts of a splitting.
#[derive(Drop)]
struct Parts<const P: u16> {
    image: Matrix<P>,
    kernel: Matrix<P>,
}

/// The vectors of the kernel that belong to the columns without a pivot, as rows.
fn kernel_rows<const P: u16>(
    alloc: Global,
    f: Field<P>,
    echelon: &Echelon<P>,
    size: u32,
    free: &[usize],
) -> Result<Matrix<P>, AllocError>
    requires form { HasEchelon P size echelon.now.rows.items echelon.now.pivots.items }
    requires within { (t : ℕ) → t < length free.now → slice_index free.now t < size }
    requires few { length free.now ≤ size }
    requires bound { length free.now * size ≤ 16777216 }
    ensures rows { IfOk result (λ m. m.rows ≡ length free.now) }
    ensures columns { IfOk result (λ m. m.columns ≡ size) }
    ensures value { IfOk result (λ m. (t l : ℕ) → t < length free.now → l < size
        → Same P (entry m t l)
        (kernel_matrix P (length echelon.now.rows.items) (cell echelon.now.rows.items)
        (slice_index echelon.now.pivots.items) l (slice_index free.now t))) }
{
    let width = size as usize;
    let mut entries = Vec::new(alloc);
    for t in 0..free.len() {
        let vector = echelon.kernel_column(alloc, f, width, free[t])?;
        entries.extend_from_slice(&vector)?;
    }
    Ok(Matrix::new(free.len() as u32, size, entries))
}

impl<const P: u16> Matrix<P> {
    /// Squares a copy of this matrix until the exponent is not below the size.
    fn raise(&self, alloc: Global, f: Field<P>, current: &mut Matrix<P>) -> Result<(), AllocError>
        requires square { self.now.rows ≡ self.now.columns }
        requires copy { HasEntries self.now.rows self.now.rows (entry self.now) current.old }
        ensures { OnOk result (IsHighPower P self.now.rows (entry self.now) current.new) }
    {
        let size = u64::from(self.rows());
        let mut exponent = 1u64;
        while exponent < size {
            let square = current.times(alloc, f, current)?;
            *current = square;
            exponent = 2 * exponent;
        }
        Ok(())
    }

    /// The image and the kernel of a high power.
    fn parts(&self, alloc: Global, f: Field<P>) -> Result<Parts<P>, AllocError>
        requires square { self.now.rows ≡ self.now.columns }
        ensures bound { IfOk result (λ _. self.now.rows * self.now.rows ≤ 16777216) }
        ensures image_rows { IfOk result (λ s. s.image.rows ≡ self.now.rows) }
        ensures kernel_rows { IfOk result (λ s. s.kernel.rows ≡ self.now.rows) }
        ensures split { IfOk result (λ s. IsSplit P self.now.rows s.image.columns s.kernel.columns
            (entry self.now) (entry s.image) (entry s.kernel)) }
    {
        let size = self.rows();
        let mut power = self.top_rows(alloc, size)?;
        self.raise(alloc, f, &mut power)?;
        let echelon = power.reduce(alloc, f, 0)?;
        let free = echelon.free_columns(alloc, size as usize)?;
        let image = power.columns_at(alloc, &echelon.pivots)?;
        let rows = kernel_rows(alloc, f, &echelon, size, &free)?;
        let kernel = rows.transposed(alloc)?;
        Ok(Parts { image, kernel })
    }

    /// The Leray splitting of a square matrix.
    pub fn leray(&self, alloc: Global, f: Field<P>) -> Result<Leray<P>, AllocError>
        requires square { self.now.rows ≡ self.now.columns }
        ensures sizes { IfOk result (HasLeraySizes P self.now.rows) }
        ensures splitting { IfOk result (λ l. IsLeraySplitting P self.now.rows (entry self.now)
            (splitting_of l)) }
    {
        let Parts { image, kernel } = self.parts(alloc, f)?;
        let split = image.side_by_side(alloc, &kernel)?;
        let split_inverse = split.known_inverse(alloc, f)?;
        let moved = self.times(alloc, f, &image)?;
        let whole = split_inverse.times(alloc, f, &moved)?;
        let reduced = whole.top_rows(alloc, image.columns())?;
        let reduced_inverse = reduced.known_inverse(alloc, f)?;
        Ok(Leray {
            image,
            kernel,
            reduced,
            reduced_inverse,
            split_inverse,
        })
    }
}
