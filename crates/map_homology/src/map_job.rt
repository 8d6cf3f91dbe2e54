//! The tool `homcubes --map`: the map that a map of pairs induces in homology.
ghost use Rattle.std.specs.Prelude.{◌≡◌};
ghost use Rattle.field_mod.specs.Moduli.{IsModulus};
ghost use Rattle.loading.specs.Jobs.{Computes, Answers};
ghost use Rattle.pair_maps.specs.Inputs.{IsFitting};
ghost use Rattle.pair_maps.specs.Moduli.{modulus_of};
ghost use Rattle.map_homology.specs.Refusals.{RefusesMapHomology};
ghost use Rattle.map_homology.specs.Reported.{IsReported};
ghost use Rattle.map_homology.specs.Jobs.{map_job, shown_of, IsMapText};

use crate::reporting::report_over;
use basis_reports::Modulus;
use faults::Fault;
use field_mod::by_modulus;
use loading::{Answer, answer_of};
use outside::Files;
use pair_maps::{MapFiles, PairMap, load_pair_map};
use report::{MapReport, Report, Shown};
use std::alloc::Global;

/// What the tool is asked to do.
#[derive(Drop)]
pub struct MapJob {
    /// The files of the map and of its pairs.
    pub files: MapFiles,
    /// The modulus of the coefficients.
    pub modulus: Modulus,
    /// Whether the cycles are printed.
    pub cycles: bool,
    /// Whether the matrices are printed.
    pub matrix: bool,
    /// Whether the counts are printed.
    pub stats: bool,
    /// Whether the index matrices are wanted.
    pub index: bool,
}

impl MapJob {
    /// How the report is printed.
    pub fn shown(&self) -> Shown
        ensures { result ≡ shown_of self.now }
    {
        Shown {
            modulus: self.modulus.number(),
            cycles: self.cycles,
            matrix: self.matrix,
            stats: self.stats,
        }
    }
}

/// The homology of both pairs of the files, and the map that the map of the files induces, or the
/// first refusal.
#[tactic(auto, unfolding(crate::specs::Jobs::map_job))]
pub fn homology_of_map<F: Files>(
    alloc: Global,
    files: &mut F,
    job: &MapJob,
) -> Result<Answer, Fault>
    ensures { Answers (map_job job.now) (F.seen files.old) (F.seen files.new) result }
{
    let input = load_pair_map(alloc, files, &job.files)?;
    compute(alloc, job, &input)
}

// The same of a map and pairs that were read.
fn compute(alloc: Global, job: &MapJob, input: &PairMap) -> Result<Answer, Fault>
    requires { IsFitting input.now }
    ensures { Computes (RefusesMapHomology (modulus_of job.now.modulus) job.now.index)
        (IsMapText (shown_of job.now) job.now.index) input.now result }
{
    let report = map_report(alloc, job.modulus, input, job.index)?;
    answer_of(alloc, &Report::Map(report), &job.shown())
}

// What is printed on the map.
fn map_report(
    alloc: Global,
    modulus: Modulus,
    input: &PairMap,
    wanted: bool,
) -> Result<MapReport, Fault>
    requires { IsFitting input.now }
    ensures table { IsModulus modulus }
    ensures reported { IsReported modulus wanted input.now result }
{
    by_modulus!(modulus.number(), field => report_over(alloc, field, input, wanted))
}
