//! Lines of a witness file that are due, one by one and in runs, with the law on the cells that
//! they name.
#![tactic(auto)]

mod cycles;
mod due;
mod kinds;
mod miss;
mod rows;
mod runs;

pub use cycles::cycles_due;
pub use due::{due_chain, due_cycle, due_vertex};
pub use miss::{Miss, Stop};
pub use rows::rows_due;
pub use runs::chains_due;
