//! Maps of pairs of sets: what their files give, and what refuses them.
#![tactic(auto)]

mod carrying;
mod dimensions;
mod inputs;
mod told;

pub use carrying::carrier_of;
pub use inputs::{MapFiles, PairMap, load_pair_map};
