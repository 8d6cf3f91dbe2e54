//! The rows of a matrix as a file has them.
#![tactic(auto)]

mod rows;

pub use rows::MatrixRows;
