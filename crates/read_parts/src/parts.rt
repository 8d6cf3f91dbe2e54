//! The parts of a witness as they are read. Cells are told by their numbers in the file, which
//! count from 1; matrices have any size that a text may give them.
use chains::Chain;
use matrix_rows::MatrixRows;
use witness_types::PairPart;

/// What is read of a map besides the part of its domain.
#[derive(Drop)]
pub struct ReadMap<const P: u16> {
    /// The part of the range.
    pub range: PairPart<P>,
    /// For each cell of the domain a vertex of its value.
    pub vertices: Vec<u32>,
    /// And the chain of each cell of its value.
    pub contractions: Vec<Vec<Chain<P>>>,
    /// And its image.
    pub images: Vec<Chain<P>>,
    /// The matrices by degree, from 0 on.
    pub rows: Vec<MatrixRows<P>>,
}

/// All parts of a witness: that of its domain, and for a map the others.
#[derive(Drop)]
pub struct Parts<const P: u16> {
    /// The part of the domain.
    pub domain: PairPart<P>,
    /// What a map has besides.
    pub map: Option<ReadMap<P>>,
}
