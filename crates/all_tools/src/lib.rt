//! All tools: what words ask of them, and a run of the program.
#![tactic(auto)]

mod answers;
mod jobs;
mod laws;
mod running;
mod words;

pub use laws::judgements_are_one;
pub use running::run;
