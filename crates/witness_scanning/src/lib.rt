//! Lines of witness files are read: words, numbers, chains and rows at the front of a text.
#![tactic(auto)]

mod fronts;
mod lines;
mod numbers;
mod terms;

pub use fronts::after;
pub use lines::{chain_line, cycle_line, row_line, vertex_line};
