//! Collapses by free faces.
#![tactic(auto)]

mod cofaces;
mod collapsing;
mod free_pairs;
mod front;
mod laws;
mod rising;

pub use collapsing::{collapse, take_pairs};
pub use laws::{collapses_go_on, collapses_leave_restrictions, free_pairs_are_units};
