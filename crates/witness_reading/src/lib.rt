//! The first pass over a witness file of version 1: from its bytes to its parts, or to the first
//! line that may not stand there or names a cell that it may not name.
#![tactic(auto)]

mod cells;
mod ends;
mod lines;
mod pair;
mod section;
mod told;

pub use ends::end_due;
pub use lines::body;
pub use pair::read_pair;
pub use section::read_section;
pub use told::fault_at;
