//! The tool on chain files.
#![tactic(auto)]

mod homchain;
mod laws;
mod refusals;

pub use homchain::{ChainJob, homology_of_file};
pub use laws::chain_jobs_have_one_judgement;
