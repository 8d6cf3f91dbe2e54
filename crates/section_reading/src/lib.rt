//! The sections of a witness file of version 1 are read: cycles, cocycles and the chains of the
//! relative cells of a pair.
#![tactic(auto)]

mod cell;
mod cocycles;
mod section;

pub use cell::{CellPart, cell_due};
pub use section::section_due;
