//! The law on the jobs of this crate, as the contract of a function that does nothing.
ghost use Rattle.loading.specs.Jobs.{HasOneJudgement};
ghost use Rattle.map_tools.specs.declared.values_job.ValuesJob.{ValuesJob};
ghost use Rattle.map_tools.specs.Jobs.{values_job};

/// Each reading is judged in one way.
pub fn values_jobs_have_one_judgement()
    ensures { (job : ValuesJob) → HasOneJudgement (values_job job) }
{}
