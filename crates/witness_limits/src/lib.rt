//! The limits of a witness: the cells whose chains it names, and the size of a map's values.
#![tactic(auto)]

mod cells;
mod sizes;

pub use cells::{test_cells, test_count};
pub use sizes::test_size;
