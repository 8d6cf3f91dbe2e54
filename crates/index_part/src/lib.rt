//! Matrices as they are printed, and the index part of a report on a map of pairs: the index
//! matrices of the map with the inclusion of its domain in its range, and their Leray splittings.
#![tactic(auto)]

mod inclusion;
mod making;
mod splittings;
mod tables;
mod told;

pub use inclusion::test_included;
pub use making::index_part;
pub use tables::{ranks_of, tables_of};
