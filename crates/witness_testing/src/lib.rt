//! The second pass over a witness file: all laws, in the order of its lines, and the claim of a
//! witness that meets them.
#![tactic(auto)]

mod cells;
mod claims;
mod matrices;
mod sides;
mod testing;

pub use testing::test_laws;
