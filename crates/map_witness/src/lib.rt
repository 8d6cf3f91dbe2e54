//! The tool on maps of pairs with a witness: its report, and a file that shows that it is right.
#![tactic(auto)]

mod laws;
mod limits;
mod making;
mod printed;
mod task;

pub use laws::map_witness_jobs_have_one_judgement;
pub use task::witnessed_map;
