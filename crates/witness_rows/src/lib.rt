//! The second pass over the rows of matrices in a witness file.
#![tactic(auto)]

mod imaging;
mod rows;

pub use imaging::products;
pub use rows::test_rows;
