//! The generator `gen holes`: the squares with n by n holes, as a set or with their homology.
ghost use Rattle.std.specs.Prelude.{◌≡◌, ◌<◌, ◌≤◌, ◌++◌, false, IfOk, IfErr, Err};
ghost use Rattle.faults.specs.declared.fault.Fault.TheVariants.{OutOfMemory};
ghost use Rattle.cell_complex.specs.CellCount.{cell_count};
ghost use Rattle.excision.specs.Excision.{excised};
ghost use Rattle.basis_reports.specs.Right.{AreAsShown, IsRightPair};
ghost use Rattle.hole_squares.specs.Holes.{IsHoleSet};
ghost use Rattle.loading.specs.Jobs.{Computes, Answers};
ghost use Rattle.gen_tool.specs.Summaries.{IsRightSummary};
ghost use Rattle.gen_tool.specs.Jobs.{holes_job, RefusesNothing, IsGenerated, IsSetText, IsSummaryText};

use crate::summary::{Summary, summary_text};
use basis_reports::{Modulus, pair_homology};
use cell_complex::{CELLS, CellsFault};
use cube_sets::CubeSet;
use faults::Fault;
use field_mod::by_modulus;
use grid_files::write_set;
use hole_squares::{MOST_HOLES, hole_squares};
use loading::Answer;
use outside::Files;
use report::PairReport;
use std::alloc::Global;

/// What the generator is asked to make.
#[derive(Debug, Drop)]
pub struct HolesJob {
    /// How many holes there are along each axis, at most `MOST_HOLES`.
    pub holes: u16,
    /// Whether the set is printed, and nothing of its homology.
    pub set_alone: bool,
    /// The modulus of the coefficients.
    pub modulus: Modulus,
}

/// The squares with holes, or their homology. No file is read.
#[tactic(auto, unfolding(crate::specs::Jobs::holes_job))]
pub fn generate<F: Files>(alloc: Global, _files: &mut F, job: &HolesJob) -> Result<Answer, Fault>
    requires { job.now.holes ≤ MOST_HOLES }
    ensures { Answers (holes_job job.now) (F.seen _files.old) (F.seen _files.new) result }
{
    compute(alloc, job)
}

// The same, which needs no files.
fn compute(alloc: Global, job: &HolesJob) -> Result<Answer, Fault>
    requires { job.now.holes ≤ MOST_HOLES }
    ensures { Computes RefusesNothing (IsGenerated job.now) tt result }
{
    if job.set_alone {
        set_answer(alloc, job.holes)
    } else {
        summary_answer(alloc, job.holes, job.modulus)
    }
}

// The set as an answer.
fn set_answer(alloc: Global, n: u16) -> Result<Answer, Fault>
    requires { n ≤ MOST_HOLES }
    ensures right { IfOk result (IsSetText n) }
    ensures fault { IfErr result (λ fault. fault ≡ OutOfMemory) }
{
    let set = hole_squares(alloc, n)?;
    let text = write_set(alloc, &set)?;
    Ok(Answer::of(text))
}

// Its summary as an answer.
fn summary_answer(alloc: Global, n: u16, modulus: Modulus) -> Result<Answer, Fault>
    requires { n ≤ MOST_HOLES }
    ensures right { IfOk result (IsSummaryText modulus n) }
    ensures fault { IfErr result (λ fault. fault ≡ OutOfMemory) }
{
    let set = hole_squares(alloc, n)?;
    let summary = summary_of(alloc, n, modulus, &set)?;
    let text = summary_text(alloc, summary, modulus.number())?;
    Ok(Answer::of(text))
}

// What is printed of the homology of the set.
fn summary_of(alloc: Global, n: u16, modulus: Modulus, set: &CubeSet) -> Result<Summary, Fault>
    requires few { n ≤ MOST_HOLES }
    requires set { IsHoleSet n set.now }
    ensures right { IfOk result (IsRightSummary modulus n) }
    ensures fault { IfErr result (λ fault. fault ≡ OutOfMemory) }
{
    let none = CubeSet::of_cells(2, Vec::new(alloc))?;
    let holes = u32::from(n);
    match homology_of(alloc, modulus, set, &none) {
        Ok(homology) => Ok(Summary {
            holes: n,
            squares: set.len(),
            cells: 15 * holes * holes + 24 * holes + 9,
            homology,
        }),
        Err(CellsFault::TooManyCells) => unreachable!(),
        Err(CellsFault::NoMemory) => Err(Fault::OutOfMemory),
    }
}

// The homology of a pair of sets of squares, without cycles.
fn homology_of(
    alloc: Global,
    modulus: Modulus,
    x: &CubeSet,
    a: &CubeSet,
) -> Result<PairReport, CellsFault>
    ensures right { IfOk result (λ pair. AreAsShown false
        (IsRightPair modulus 2 x.now.cells a.now.cells pair.dimensions) pair.cycles) }
    ensures many { result ≡ Err CellsFault.TooManyCells
        → CELLS < cell_count (x.now.cells ++ (excised x.now a.now).cells) }
{
    by_modulus!(modulus.number(), field => pair_homology(alloc, field, x, a, 2, false))
}
