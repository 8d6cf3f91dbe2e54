//! What a witness speaks of is loaded.
ghost use Rattle.std.specs.Prelude.{◌≡◌, IfOk, Ok, option_copied};
ghost use Rattle.loading.specs.Loads.{Loads};
ghost use Rattle.loading.specs.Steps.{Then, Is};
ghost use Rattle.loading.specs.TwoSets.{two_bytes, AreTwoSetsIn};
ghost use Rattle.pair_maps.specs.Inputs.{bytes_of, IsPairMapIn};
ghost use Rattle.replay_tool.specs.Inputs.{kind_of, kind_of_subject, subject_bytes, IsSubjectIn, IsFit};
ghost use Rattle.witness_types.specs.declared.heading.ClaimKind.TheVariants as kinds;

use crate::inputs::{ReplayFiles, Subject};
use faults::{Fault, Name};
use loading::load_two_sets;
use outside::Files;
use pair_maps::{MapFiles, load_pair_map};
use std::alloc::Global;

/// The pair of the files, or the map with its pairs.
pub(crate) fn load_subject<F: Files>(
    alloc: Global,
    files: &mut F,
    names: &ReplayFiles,
) -> Result<Subject, Fault>
    ensures loads { Loads (subject_bytes names.now) (IsSubjectIn names.now)
        (F.seen files.old) (F.seen files.new) result }
    ensures fits { IfOk result IsFit }
    ensures kind { IfOk result (λ subject. kind_of_subject subject ≡ kind_of names.now) }
{
    match names {
        ReplayFiles::Pair { x, a } => load_sets(alloc, files, x, a.as_ref()),
        ReplayFiles::Map(map) => load_maps(alloc, files, map),
    }
}

// The pair of the files.
fn load_sets<F: Files>(
    alloc: Global,
    files: &mut F,
    x: &Name,
    a: Option<&Name>,
) -> Result<Subject, Fault>
    ensures loads { Loads (two_bytes (option_copied a.entry))
        (λ read. Then (AreTwoSetsIn x.now (option_copied a.entry) read)
        (λ sets. Is (Ok (Subject.Pair sets)))) (F.seen files.old) (F.seen files.new) result }
    ensures fits { IfOk result IsFit }
    ensures kind { IfOk result (λ subject. kind_of_subject subject ≡ kinds.Pair) }
{
    let sets = load_two_sets(alloc, files, x, a)?;
    Ok(Subject::Pair(sets))
}

// The map of the files, with its pairs.
fn load_maps<F: Files>(alloc: Global, files: &mut F, map: &MapFiles) -> Result<Subject, Fault>
    ensures loads { Loads (bytes_of map.now)
        (λ read. Then (IsPairMapIn map.now read)
        (λ m. Is (Ok (Subject.Map m)))) (F.seen files.old) (F.seen files.new) result }
    ensures fits { IfOk result IsFit }
    ensures kind { IfOk result (λ subject. kind_of_subject subject ≡ kinds.Map) }
{
    let map = load_pair_map(alloc, files, map)?;
    Ok(Subject::Map(map))
}
