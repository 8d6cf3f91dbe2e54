//! The tool `chkmvmap`: whether the values of a map at all cells of its domain are acyclic.
ghost use Rattle.std.specs.Prelude.{◌≡◌, IfOk, IfErr};
ghost use Rattle.field_mod.specs.Moduli.{IsModulus};
ghost use Rattle.loading.specs.Jobs.{Computes, Answers};
ghost use Rattle.pair_maps.specs.Inputs.{IsFitting};
ghost use Rattle.pair_maps.specs.Moduli.{modulus_of};
ghost use Rattle.pair_maps.specs.Refusals.{RefusesPairMap};
ghost use Rattle.map_tools.specs.Counted.{IsCounted};
ghost use Rattle.map_tools.specs.Jobs.{values_job, values_text, IsValuesText};

use crate::values_job::ValuesJob;
use basis_reports::Modulus;
use faults::Fault;
use field_mod::{Field, by_modulus};
use itoa::Buffer;
use loading::Answer;
use outside::Files;
use pair_maps::{PairMap, carrier_of, load_pair_map};
use std::alloc::{AllocError as NoMemory, Global};

/// How many cells the domain of the map of the files has, where the map goes from its domain to its
/// range and its values at all of them are acyclic, or the first refusal.
#[tactic(auto, unfolding(crate::specs::Jobs::values_job))]
pub fn check_map<F: Files>(alloc: Global, files: &mut F, job: &ValuesJob) -> Result<Answer, Fault>
    ensures { Answers (values_job job.now) (F.seen files.old) (F.seen files.new) result }
{
    let input = load_pair_map(alloc, files, &job.files)?;
    compute(alloc, job.modulus, &input)
}

// The same of a map and sets that were read.
fn compute(alloc: Global, modulus: Modulus, input: &PairMap) -> Result<Answer, Fault>
    requires { IsFitting input.now }
    ensures { Computes (RefusesPairMap (modulus_of modulus)) IsValuesText input.now result }
{
    let count = acyclic_cells(alloc, modulus, input)?;
    answer(alloc, count)
}

// The answer where the domain has so many cells.
fn answer(alloc: Global, count: u32) -> Result<Answer, Fault>
    ensures right { IfOk result (λ text. text ≡ values_text count) }
    ensures fault { IfErr result (λ fault. fault ≡ Fault.OutOfMemory) }
{
    let text = text(alloc, count)?;
    Ok(Answer::of(text))
}

// How many cells the domain has, where the values at all of them are acyclic, else why not.
fn acyclic_cells(alloc: Global, modulus: Modulus, input: &PairMap) -> Result<u32, Fault>
    requires { IsFitting input.now }
    ensures table { IsModulus modulus }
    ensures counted { IsCounted modulus input.now result }
{
    by_modulus!(modulus.number(), field => acyclic_cells_over(alloc, field, input))
}

// The same over a field.
fn acyclic_cells_over<const P: u16>(
    alloc: Global,
    field: Field<P>,
    input: &PairMap,
) -> Result<u32, Fault>
    requires { IsFitting input.now }
    ensures { IsCounted P input.now result }
{
    let carrier = carrier_of(alloc, field, input)?;
    Ok(carrier.domain_cells().len())
}

// The text on so many cells.
fn text(alloc: Global, count: u32) -> Result<Vec<u8>, NoMemory>
    ensures { IfOk result (λ text. text.items ≡ values_text count) }
{
    let mut buffer = Buffer::new();
    let mut to = Vec::from_slice(alloc, b"acyclic values: ")?;
    to.extend_from_slice(buffer.format(count).as_bytes())?;
    to.extend_from_slice(b"\n")?;
    Ok(to)
}
