//! Reports on index matrices.
use crate::{Dimensions, Rows};

/// The Leray splitting of a square matrix of size d, its matrices by their rows.
#[derive(Drop)]
pub struct LerayRows {
    /// A basis of the image, of d rows and r columns.
    pub image: Rows,
    /// A basis of the kernel, of d rows and d - r columns.
    pub kernel: Rows,
    /// What the matrix does to the columns of `image`, of size r.
    pub reduced: Rows,
    /// The inverse of `reduced`.
    pub reduced_inverse: Rows,
    /// The inverse of `image` and `kernel` side by side.
    pub split_inverse: Rows,
}

/// What is printed on the index matrices of a map from a pair to a larger one, each by degree
/// from 0.
#[derive(Drop)]
pub struct IndexPart {
    /// The ranks of the matrices.
    pub ranks: Dimensions,
    /// The matrices: a row and a column for each element of the basis of the domain.
    pub matrices: Vec<Rows>,
    /// Their Leray splittings.
    pub leray: Vec<LerayRows>,
}
