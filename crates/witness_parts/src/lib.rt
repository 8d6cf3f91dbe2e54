//! The parts of witness files, made of bases.
#![tactic(auto)]

mod file_numbers;
mod pair;
mod witness;

pub use file_numbers::filed;
pub use pair::pair_part;
pub use witness::pair_witness;
