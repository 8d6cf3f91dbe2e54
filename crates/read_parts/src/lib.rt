//! The parts of a witness file as they are read.
#![tactic(auto)]

mod parts;

pub use parts::{Parts, ReadMap};
