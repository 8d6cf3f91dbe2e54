//! What `replay` is asked to do, and what its files give.
use faults::Name;
use loading::TwoSets;
use pair_maps::{MapFiles, PairMap};

/// The files that a witness speaks of.
#[derive(Drop)]
pub enum ReplayFiles {
    /// A set, and its subset, where there is one.
    Pair { x: Name, a: Option<Name> },
    /// A map and both of its pairs.
    Map(MapFiles),
}

/// What the tool is asked to do.
#[derive(Drop)]
pub struct ReplayJob {
    /// The witness file.
    pub witness: Name,
    /// The files that it speaks of.
    pub files: ReplayFiles,
}

/// What these files give.
#[derive(Drop)]
pub enum Subject {
    /// A pair of sets.
    Pair(TwoSets),
    /// A map between two pairs.
    Map(PairMap),
}
