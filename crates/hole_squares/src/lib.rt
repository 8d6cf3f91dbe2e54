//! Squares with holes: sets whose homology is known, and how many members and cells they have.
#![tactic(auto)]

mod laws;
mod squares;

pub use laws::{cells_are_counted, squares_are_counted};
pub use squares::{MOST_HOLES, hole_squares};
