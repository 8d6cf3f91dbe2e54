//! The states of cells packed into words, one word for all cells at a point.
#![tactic(auto)]

mod words;

pub use words::{Words, words_of};
