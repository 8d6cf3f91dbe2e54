//! The tool that tests a witness file of a pair or of a map.
#![tactic(auto)]

mod accepting;
mod heads;
mod inputs;
mod laws;
mod limits;
mod replaying;
mod subjects;
mod told;

pub use inputs::{ReplayFiles, ReplayJob, Subject};
pub use laws::replay_jobs_are_judged_once;
pub use replaying::replayed;
