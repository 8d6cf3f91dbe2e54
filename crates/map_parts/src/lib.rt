//! The part of a map in a witness file, and the whole file of a map.
#![tactic(auto)]

mod images;
mod part;
mod values;
mod witness;

pub use part::map_part;
pub use witness::{domain_part, map_witness};
