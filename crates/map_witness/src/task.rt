//! The tool `homcubes --map --witness`: the map that a map of pairs induces in homology, and its
//! witness.
ghost use Rattle.field_mod.specs.Moduli.{IsModulus};
ghost use Rattle.map_homology.specs.Jobs.{shown_of};
ghost use Rattle.pair_maps.specs.Inputs.{IsFitting};
ghost use Rattle.pair_maps.specs.Moduli.{modulus_of};
ghost use Rattle.tool.specs.Tasks.{Provides, Produces};
ghost use Rattle.map_witness.specs.Jobs.{map_witness_task, IsMade, IsWritten};
ghost use Rattle.map_witness.specs.Refusals.{RefusesMapWitness};

use crate::making::made_over;
use basis_reports::Modulus;
use faults::{Fault, Name};
use field_mod::by_modulus;
use loading::answer_of;
use map_homology::MapJob;
use outside::Files;
use pair_maps::{PairMap, load_pair_map};
use report::{MapReport, Report};
use std::alloc::Global;
use tool::{Output, OutputFile};

/// The homology of both pairs of the files, the map that the map of the files induces, and a
/// witness that is to be written to a file; or the first refusal.
#[tactic(auto, unfolding(crate::specs::Jobs::map_witness_task))]
pub fn witnessed_map<F: Files>(
    alloc: Global,
    files: &mut F,
    job: &MapJob,
    file: &Name,
) -> Result<Output, Fault>
    ensures { Provides (map_witness_task job.now file.now)
        (F.seen files.old) (F.seen files.new) result }
{
    let input = load_pair_map(alloc, files, &job.files)?;
    compute(alloc, job, file, &input)
}

// The same of a map and pairs that were read.
fn compute(alloc: Global, job: &MapJob, file: &Name, input: &PairMap) -> Result<Output, Fault>
    requires { IsFitting input.now }
    ensures { Produces (RefusesMapWitness (modulus_of job.now.modulus) job.now.index)
        (IsWritten (shown_of job.now) job.now.index file.now) input.now result }
{
    let (report, bytes) = made_of(alloc, job.modulus, input, job.index)?;
    let text = answer_of(alloc, &Report::Map(report), &job.shown())?;
    let name = file.copy(alloc)?;
    Ok(Output::of(text, Some(OutputFile::of(name, bytes))))
}

// The report on the map, and the bytes of its witness.
fn made_of(
    alloc: Global,
    modulus: Modulus,
    input: &PairMap,
    wanted: bool,
) -> Result<(MapReport, Vec<u8>), Fault>
    requires { IsFitting input.now }
    ensures table { IsModulus modulus }
    ensures made { IsMade modulus wanted input.now result }
{
    by_modulus!(modulus.number(), field => made_over(alloc, field, input, wanted))
}
