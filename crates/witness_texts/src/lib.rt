//! The header of witness files.
#![tactic(auto)]

mod fronts;
mod reading;

pub use reading::header;
pub use witness_types::{ClaimKind, Header};
