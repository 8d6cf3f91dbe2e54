//! The tool that makes sets whose homology is known.
#![tactic(auto)]

mod holes;
mod laws;
mod summary;

pub use holes::{HolesJob, generate};
pub use laws::generator_has_one_judgement;
