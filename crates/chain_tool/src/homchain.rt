//! The tool `homchain`: the homology of the complex of a chain file.
ghost use Rattle.std.specs.Prelude.{◌≡◌, IfOk, IfErr, Ok};
ghost use Rattle.chain_files.specs.Content.{Content};
ghost use Rattle.chain_files.specs.Complexes.{IsFileComplex};
ghost use Rattle.basis_reports.specs.Right.{IsRightFile, AreAsShown};
ghost use Rattle.loading.specs.Jobs.{Answers};
ghost use Rattle.chain_tool.specs.Contents.{IsContentOf, IsRefusal};
ghost use Rattle.chain_tool.specs.Jobs.{chain_job, shown_of};

use crate::refusals::{chain_fault, not_complex};
use basis_reports::{Modulus, file_homology};
use chain_files::{ChainFault, ChainFile, read_complex};
use faults::{Fault, Name};
use field_mod::{Field, by_modulus};
use loading::{Answer, FILE_BYTES, answer_of, load_bytes};
use outside::Files;
use report::{Cycles, Dimensions, Report, Shown};
use std::alloc::Global;

/// What the tool is asked to do.
#[derive(Drop)]
pub struct ChainJob {
    /// The chain file.
    pub file: Name,
    /// The modulus of the coefficients.
    pub modulus: Modulus,
    /// Whether the cycles are printed.
    pub cycles: bool,
}

impl ChainJob {
    /// How the report is printed.
    fn shown(&self) -> Shown
        ensures { result ≡ shown_of self.now }
    {
        Shown {
            modulus: self.modulus.number(),
            cycles: self.cycles,
            matrix: false,
            stats: false,
        }
    }
}

/// The homology of the complex of the file, or the first refusal.
#[tactic(auto, unfolding(crate::specs::Jobs::chain_job))]
pub fn homology_of_file<F: Files>(
    alloc: Global,
    files: &mut F,
    job: &ChainJob,
) -> Result<Answer, Fault>
    ensures { Answers (chain_job job.now) (F.seen files.old) (F.seen files.new) result }
{
    let bytes = load_bytes(alloc, files, &job.file, FILE_BYTES)?;
    let (dimensions, cycles) = homology_of_text(alloc, job, bytes)?;
    answer_of(alloc, &Report::Chain { dimensions, cycles }, &job.shown())
}

// The homology of the complex of a text: its dimensions, and the cycles of a basis where they are
// printed.
fn homology_of_text(
    alloc: Global,
    job: &ChainJob,
    bytes: Vec<u8>,
) -> Result<(Dimensions, Cycles<u32>), Fault>
    ensures right { IfOk result (λ made. (content : Content)
        × IsContentOf job.now.modulus job.now.file bytes.items (Ok content)
        × AreAsShown job.now.cycles (IsRightFile job.now.modulus content made.0) made.1) }
    ensures fault { IfErr result (IsRefusal job.now.modulus job.now.file bytes.items) }
{
    by_modulus!(job.modulus.number(), field => homology_over(alloc, field, job, bytes))
}

// The same over a field.
fn homology_over<const P: u16>(
    alloc: Global,
    field: Field<P>,
    job: &ChainJob,
    bytes: Vec<u8>,
) -> Result<(Dimensions, Cycles<u32>), Fault>
    ensures right { IfOk result (λ made. (content : Content)
        × IsContentOf P job.now.file bytes.items (Ok content)
        × AreAsShown job.now.cycles (IsRightFile P content made.0) made.1) }
    ensures fault { IfErr result (IsRefusal P job.now.file bytes.items) }
{
    let file = complex_of(alloc, field, &job.file, &bytes)?;
    drop(bytes);
    let (dimensions, cycles) = file_homology(alloc, field, file, job.cycles)?;
    Ok((dimensions, cycles))
}

// The complex of the text of a file.
fn complex_of<const P: u16>(
    alloc: Global,
    field: Field<P>,
    name: &Name,
    bytes: &[u8],
) -> Result<ChainFile<P>, Fault>
    ensures file { IfOk result (λ file. (content : Content)
        × IsContentOf P name.now bytes.now (Ok content) × IsFileComplex P content file) }
    ensures fault { IfErr result (IsRefusal P name.now bytes.now) }
{
    match read_complex(alloc, field, bytes) {
        Ok(file) => Ok(file),
        Err(ChainFault::At { place, cause }) => Err(chain_fault(alloc, name, place, cause)),
        Err(
            ChainFault::NotComplex {
                degree,
                generator,
                at,
                value,
            },
        ) => Err(not_complex(alloc, name, degree, generator, at, value)),
        Err(ChainFault::NoMemory) => Err(Fault::OutOfMemory),
    }
}
