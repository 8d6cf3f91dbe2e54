//! The second pass over the section of a pair in a witness file: cycles, cocycles and the chains of
//! its cells.
#![tactic(auto)]

mod cocycles;
mod contractions;
mod cycles;
mod pair;
mod reading;
mod section;
mod tests;

pub use pair::test_section;
pub use reading::{cell_of, cocycles_beside, cycles_beside, read_chain, read_chains};
pub use section::{Degree, Section, section_of};
pub use tests::is_sum;
