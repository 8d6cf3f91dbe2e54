//! Distinct cells in their order, kept by their lower corners.
#![tactic(auto)]

mod cutting;
mod fault;
mod mask;
mod place;
mod places;
mod points;
mod search;

pub use fault::PointsFault;
pub use points::Points;
