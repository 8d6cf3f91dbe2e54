//! The algebraic reduction of a chain complex by pairs of generators: the log of the pairs, with
//! projection, inclusion and homotopy of all steps.
#![tactic(auto)]

mod descending;
mod due;
mod generators;
mod kept;
mod laws;
mod log;
mod maps;
mod naming;
mod numbers;
mod parts;
mod place;
mod reducing;
mod settling;

pub use laws::{
    acyclic_parts_are_taken, free_steps_leave_restrictions, left_generators_are_basis,
    left_generators_are_dimension, steps_are_reductions, steps_within_leave_restrictions,
};
pub use log::Log;
