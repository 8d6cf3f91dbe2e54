//! The first pass over a witness file of version 1, for a map and for a pair.
#![tactic(auto)]

mod cells;
mod matrices;
mod reading;
mod tables;
mod whole;

pub use reading::read_witness;
