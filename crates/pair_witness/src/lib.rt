//! The tool on pairs of sets with a witness: its report, and a file that shows that it is right.
#![tactic(auto)]

mod bases;
mod homology;
mod laws;
mod making;

pub use homology::witnessed_homology;
pub use laws::witness_jobs_have_one_judgement;
