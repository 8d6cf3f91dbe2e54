//! Reports on witness files that are accepted.
use crate::{Dimensions, Rows};

/// What is printed on a witness file that is accepted.
#[derive(Drop)]
pub struct Accepted {
    /// The dimensions of the groups of the pair from which the map goes, or of the pair alone, by
    /// degree from 0.
    pub domain: Dimensions,
    /// What the witness says of a map, where it is the witness of one.
    pub map: Option<AcceptedMap>,
}

/// What a witness file that is accepted says of a map.
#[derive(Drop)]
pub struct AcceptedMap {
    /// The dimensions of the groups of the pair to which the map goes, by degree from 0.
    pub range: Dimensions,
    /// The matrices of the map, by degree from 0, which are not printed.
    pub matrices: Vec<Rows>,
    /// Their ranks.
    pub ranks: Dimensions,
}
