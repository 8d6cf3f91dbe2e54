//! A chain map that a map with acyclic values carries, made cell by cell: each image fills, on the
//! value, what the images of the faces give.
#![tactic(auto)]

mod boundary;
mod filling;
mod laws;
mod renumbering;
mod selector;
mod sums;

pub use laws::{selections_are_of_one_map, sums_are_of_one_map};
pub use renumbering::renumbered;
pub use selector::Selector;
