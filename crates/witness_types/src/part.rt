//! The parts of a witness. Cells are told by their numbers in the file, which count from 1.
use chains::Chain;
use leray_conley::Matrix;

/// What a witness has of a pair: cycles with their degrees, which never fall, their cocycles, and a
/// chain for each relative cell.
#[derive(Drop)]
pub struct PairPart<const P: u16> {
    /// The degree of each cycle, and the cycle.
    pub cycles: Vec<(u8, Chain<P>)>,
    /// A cocycle for each cycle.
    pub cocycles: Vec<Chain<P>>,
    /// The chain of each relative cell, in order.
    pub homotopy: Vec<Chain<P>>,
}

/// What a witness has of a map besides the part of its domain.
#[derive(Drop)]
pub struct MapPart<const P: u16> {
    /// The part of the range.
    pub range: PairPart<P>,
    /// For each cell of the domain a vertex of its value.
    pub vertices: Vec<u32>,
    /// And the chain of each cell of its value.
    pub contractions: Vec<Vec<Chain<P>>>,
    /// And its image.
    pub images: Vec<Chain<P>>,
    /// The matrices by degree, from 0 on.
    pub matrices: Vec<Matrix<P>>,
}

/// What an accepted witness shows. For a pair the last two are empty.
#[derive(Drop)]
pub struct Claim<const P: u16> {
    /// The dimension of the homology of the domain in each degree.
    pub domain: Vec<u32>,
    /// And that of the range.
    pub range: Vec<u32>,
    /// The matrices by degree, from 0 on.
    pub matrices: Vec<Matrix<P>>,
}
