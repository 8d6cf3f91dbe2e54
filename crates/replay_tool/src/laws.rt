//! The law on the jobs of this crate, as the contract of a function that does nothing.
ghost use Rattle.loading.specs.Jobs.{IsJudgedOnce};
ghost use Rattle.replay_tool.specs.declared.inputs.ReplayJob.{ReplayJob};
ghost use Rattle.replay_tool.specs.Jobs.{replay_job};

/// Each reading is judged in one way.
#[tactic(auto, using(crate::proofs::Judged::replay_once))]
pub fn replay_jobs_are_judged_once()
    ensures { (job : ReplayJob) → IsJudgedOnce (replay_job job) }
{}
