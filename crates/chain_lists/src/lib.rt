//! Lists of chains: sums of their multiples, and their transposes.
#![tactic(auto)]

mod gathered;
mod sums;
mod transposes;

pub use gathered::Gathered;
pub use sums::{combined, push_scaled};
pub use transposes::transposed;
