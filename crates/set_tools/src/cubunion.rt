//! The tools `cubunion` and `cubinter`: the union and the intersection of two sets.
ghost use Rattle.std.specs.Prelude.{◌≡◌, ◌+◌, ◌<◌, ◌^◌, length, max, IsTrue, IfOk, List};
ghost use Rattle.elem_cubes.specs.Cells.{Factor};
ghost use Rattle.cube_sets.specs.Sets.{holds, dimensions_agree};
ghost use Rattle.loading.specs.TwoSets.{AreOperands};
ghost use Rattle.loading.specs.Jobs.{Computes, Answers};
ghost use Rattle.set_tools.specs.Combining.{is_combined, combined_of};
ghost use Rattle.set_tools.specs.Jobs.{combination_job, RefusesCombination, IsCombinationText};

use crate::texts::{answer_of, too_many};
use cube_sets::{CUBES, CubeSet};
use faults::{Fault, Name};
use loading::{Answer, TwoSets, load_two_sets};
use outside::Files;
use std::alloc::{AllocError as NoMemory, Global};

/// How two sets are combined.
#[derive(Clone, Copy, Debug, PartialEq, Eq)]
pub enum Combination {
    /// The members of either set.
    Union,
    /// The members of both sets.
    Intersection,
}

/// What the tools are asked to do.
#[derive(Drop)]
pub struct CombinationJob {
    /// The file of the first set.
    pub x: Name,
    /// The file of the second set.
    pub y: Name,
    /// How the sets are combined.
    pub combination: Combination,
}

/// The union or the intersection of the sets of the files, or the first refusal.
#[tactic(auto, unfolding(crate::specs::Jobs::combination_job))]
pub fn combine<F: Files>(
    alloc: Global,
    files: &mut F,
    job: &CombinationJob,
) -> Result<Answer, Fault>
    ensures { Answers (combination_job job.now) (F.seen files.old) (F.seen files.new) result }
{
    let sets = load_two_sets(alloc, files, &job.x, Some(&job.y))?;
    compute(alloc, job.combination, &sets)
}

// The union or the intersection of two sets, where it is not too large.
fn compute(alloc: Global, combination: Combination, sets: &TwoSets) -> Result<Answer, Fault>
    requires { AreOperands sets.now }
    ensures { Computes (RefusesCombination combination) (IsCombinationText combination)
        sets.now result }
{
    let set = combine_sets(alloc, combination, &sets.x, &sets.y)?;
    if set.len() > CUBES {
        return Err(too_many());
    }
    answer_of(alloc, &set)
}

// The union or the intersection of two sets.
fn combine_sets(
    alloc: Global,
    combination: Combination,
    x: &CubeSet,
    y: &CubeSet,
) -> Result<CubeSet, NoMemory>
    requires agree { IsTrue (dimensions_agree x.now.dimension y.now.dimension) }
    requires few { length x.now.cells + length y.now.cells < 2 ^ 32 }
    ensures dimension { IfOk result (λ set. set.dimension ≡ max x.now.dimension y.now.dimension) }
    ensures members { IfOk result (λ set. (q : List Factor)
        → holds set q ≡ is_combined combination x.now y.now q) }
    ensures cells { IfOk result (λ set.
        set.cells ≡ combined_of combination x.now.cells y.now.cells) }
{
    match combination {
        Combination::Union => x.union(alloc, y),
        Combination::Intersection => x.intersection(alloc, y),
    }
}
