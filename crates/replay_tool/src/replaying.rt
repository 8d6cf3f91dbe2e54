//! The tool `replay`: whether a witness file meets the laws, and what it shows then.
ghost use Rattle.std.specs.Prelude.{◌≡◌};
ghost use Rattle.loading.specs.Jobs.{Computes, Answers};
ghost use Rattle.field_mod.specs.Moduli.{IsModulus};
ghost use Rattle.witness_types.specs.Headers.{IsHeader};
ghost use Rattle.replay_tool.specs.Inputs.{header_of, kind_of, kind_of_subject, given_of, IsFit};
ghost use Rattle.replay_tool.specs.Refusals.{IsReady, RefusesTestimony};
ghost use Rattle.replay_tool.specs.Answered.{IsReplayed};
ghost use Rattle.replay_tool.specs.Jobs.{replay_job, plain, IsAcceptedText};

use crate::accepting::accept;
use crate::heads::load_witness;
use crate::inputs::{ReplayFiles, ReplayJob, Subject};
use crate::limits::make_ready;
use crate::subjects::load_subject;
use faults::{Fault, Name};
use field_mod::by_modulus;
use loading::{Answer, answer_of};
use outside::Files;
use report::{Accepted, Report, Shown};
use std::alloc::Global;
use witness_types::ClaimKind;

/// What the witness of the files shows, where it meets the laws, or the first refusal.
#[tactic(auto, unfolding(crate::specs::Jobs::replay_job))]
pub fn replayed<F: Files>(alloc: Global, files: &mut F, job: &ReplayJob) -> Result<Answer, Fault>
    ensures { Answers (replay_job job.now) (F.seen files.old) (F.seen files.new) result }
{
    let kind = kind_of(&job.files);
    let (bytes, modulus) = load_witness(alloc, files, &job.witness, kind)?;
    let subject = load_subject(alloc, files, &job.files)?;
    compute(alloc, &job.witness, &bytes, modulus, &subject)
}

// Of what the files want a claim.
fn kind_of(files: &ReplayFiles) -> ClaimKind
    ensures { result ≡ kind_of files.now }
{
    match files {
        ReplayFiles::Pair { .. } => ClaimKind::Pair,
        ReplayFiles::Map(_) => ClaimKind::Map,
    }
}

// The answer on what the files give.
fn compute(
    alloc: Global,
    name: &Name,
    bytes: &[u8],
    modulus: u16,
    subject: &Subject,
) -> Result<Answer, Fault>
    requires header { IsHeader bytes.now (header_of (kind_of_subject subject.now) modulus) }
    requires fits { IsFit subject.now }
    ensures { Computes (RefusesTestimony name.now) IsAcceptedText
        (record { bytes = bytes.now; modulus = modulus; subject = subject.now }) result }
{
    make_ready(alloc, subject)?;
    let report = accepted(alloc, name, bytes, modulus, subject)?;
    let shown = Shown {
        modulus,
        cycles: false,
        matrix: false,
        stats: false,
    };
    answer_of(alloc, &Report::Accepted(report), &shown)
}

// What is told of the witness over the field of its modulus.
fn accepted(
    alloc: Global,
    name: &Name,
    bytes: &[u8],
    modulus: u16,
    subject: &Subject,
) -> Result<Accepted, Fault>
    requires header { IsHeader bytes.now (header_of (kind_of_subject subject.now) modulus) }
    requires fits { IsFit subject.now }
    requires ready { IsReady subject.now }
    ensures { IsReplayed name.now modulus (given_of subject.now) bytes.now result }
{
    by_modulus!(modulus, field => accept(alloc, field, name, bytes, subject))
}
