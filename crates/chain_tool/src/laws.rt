//! The law on the jobs of this crate, as the contract of a function that does nothing.
ghost use Rattle.loading.specs.Jobs.{HasOneJudgement};
ghost use Rattle.chain_tool.specs.declared.homchain.ChainJob.{ChainJob};
ghost use Rattle.chain_tool.specs.Jobs.{chain_job};

/// Each reading is judged in one way.
pub fn chain_jobs_have_one_judgement()
    ensures { (job : ChainJob) → HasOneJudgement (chain_job job) }
{}
