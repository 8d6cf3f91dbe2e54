//! Texts of maps: map files, read. Their tokens, corners and skipped lines are those of set files.
#![tactic(auto)]

mod gathered;
mod laws;
mod map_file;
mod opening;
mod parts;
mod reader;
mod values;

pub use laws::{refusals_are_first, texts_have_one_outcome};
pub use map_file::read_map;
