//! The tool on the values of maps.
#![tactic(auto)]

mod chkmvmap;
mod laws;
mod values_job;

pub use chkmvmap::check_map;
pub use laws::values_jobs_have_one_judgement;
pub use values_job::ValuesJob;
