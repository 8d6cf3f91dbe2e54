//! The law on the jobs of this crate, as the contract of a function that does nothing.
ghost use Rattle.loading.specs.Jobs.{HasOneJudgement};
ghost use Rattle.map_homology.specs.declared.map_job.MapJob.{MapJob};
ghost use Rattle.map_homology.specs.Jobs.{map_job};

/// Each reading is judged in one way.
pub fn map_jobs_have_one_judgement()
    ensures { (job : MapJob) → HasOneJudgement (map_job job) }
{}
