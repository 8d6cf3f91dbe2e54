//! The lines of witness files as bytes.
#![tactic(auto)]

mod lines;
mod parts;

pub use lines::{put_chain_line, put_numbers_line, put_row_line};
