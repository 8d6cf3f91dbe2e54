//! The law on the jobs of this crate, as the contract of a function that does nothing.
ghost use Rattle.std.specs.Prelude.{ℕ, List};
ghost use Rattle.loading.specs.Jobs.{HasOneJudgement};
ghost use Rattle.map_homology.specs.declared.map_job.MapJob.{MapJob};
ghost use Rattle.map_witness.specs.Jobs.{map_witness_task};

/// Each reading is judged in one way.
pub fn map_witness_jobs_have_one_judgement()
    ensures { (job : MapJob) (file : List ℕ) → HasOneJudgement (map_witness_task job file).job }
{}
