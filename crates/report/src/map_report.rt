//! Reports on maps between pairs of cubical sets.
use crate::{Dimensions, IndexPart, PairReport, Rows};

/// What is printed on the map that a map of cubes induces in homology.
#[derive(Drop)]
pub struct MapReport {
    /// On the pair from which the map goes.
    pub domain: PairReport,
    /// On the pair to which it goes.
    pub range: PairReport,
    /// The ranks of the map, by degree from 0.
    pub ranks: Dimensions,
    /// The matrices of the map, by degree from 0: a row for each element of the basis of the range,
    /// a column for each of the domain. They may be left out where they are not printed.
    pub matrices: Vec<Rows>,
    /// The index matrices, where they are wanted.
    pub index: Option<IndexPart>,
}
