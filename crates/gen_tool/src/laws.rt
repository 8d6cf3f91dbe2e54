//! The law on the job of this crate, as the contract of a function that does nothing.
ghost use Rattle.loading.specs.Jobs.{HasOneJudgement};
ghost use Rattle.gen_tool.specs.declared.holes.HolesJob.{HolesJob};
ghost use Rattle.gen_tool.specs.Jobs.{holes_job};

/// Each reading is judged in one way.
pub fn generator_has_one_judgement()
    ensures { (job : HolesJob) → HasOneJudgement (holes_job job) }
{}
