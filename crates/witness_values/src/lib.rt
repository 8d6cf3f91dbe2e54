//! The second pass over the values of a map in a witness file: the chains that contract a value to
//! its vertex.
#![tactic(auto)]

mod cells;
mod fillings;
mod images;

pub use cells::{MapSides, test_cells};
pub use fillings::test_fillings;
pub use images::image_fault;
