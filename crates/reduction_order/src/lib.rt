//! The order in which the generators of a chain complex are taken in pairs: it has no say in what
//! is right, only in what is quick and short.
#![tactic(auto)]

mod marks;
mod plan;

pub use plan::{Plan, Turn};
