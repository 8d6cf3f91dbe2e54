//! A witness is tested, and what it claims is told.
ghost use Rattle.std.specs.Prelude.{◌≡◌, ◌⊎◌, None, IfOk, IfErr, IfSome, map};
ghost use Rattle.loading.specs.TwoSets.{AreOperands};
ghost use Rattle.pair_maps.specs.Inputs.{IsFitting};
ghost use Rattle.witness_types.specs.declared.heading.ClaimKind.TheVariants as kinds;
ghost use Rattle.witness_types.specs.Headers.{IsHeader};
ghost use Rattle.witness_types.specs.Inputs.{given_of as given_by, IsWitnessInput, IsWithinTables};
ghost use Rattle.witness_types.specs.Answers.{IsHeaded, ShowsTables};
ghost use Rattle.replay_tool.specs.declared.inputs.Subject.TheVariants as subjects;
ghost use Rattle.replay_tool.specs.Inputs.{header_of, given_of, kind_of_subject, IsFit};
ghost use Rattle.replay_tool.specs.Refusals.{FailsBy, IsReady};
ghost use Rattle.replay_tool.specs.Answered.{IsReplayed, TellsPair, TellsMap};

use crate::inputs::Subject;
use crate::told::{law_fails, told_law};
use faults::{Fault, Name};
use field_mod::Field;
use index_part::{ranks_of, tables_of};
use loading::TwoSets;
use pair_maps::PairMap;
use report::{Accepted, AcceptedMap, Dimensions};
use std::alloc::{AllocError as NoMemory, Global};
use witness_replay::replay;
use witness_types::{Claim, Input, WitnessFault};

/// What an accepted witness claims; else the first line and law that fail.
pub(crate) fn accept<const P: u16>(
    alloc: Global,
    field: Field<P>,
    name: &Name,
    bytes: &[u8],
    subject: &Subject,
) -> Result<Accepted, Fault>
    requires header { IsHeader bytes.now (header_of (kind_of_subject subject.now) P) }
    requires fits { IsFit subject.now }
    requires ready { IsReady subject.now }
    ensures { IsReplayed name.now P (given_of subject.now) bytes.now result }
{
    match subject {
        Subject::Pair(sets) => accept_pair(alloc, field, name, bytes, sets),
        Subject::Map(map) => accept_map(alloc, field, name, bytes, map),
    }
}

// The same of a pair.
fn accept_pair<const P: u16>(
    alloc: Global,
    field: Field<P>,
    name: &Name,
    bytes: &[u8],
    sets: &TwoSets,
) -> Result<Accepted, Fault>
    requires header { IsHeader bytes.now (header_of kinds.Pair P) }
    requires fits { AreOperands sets.now }
    requires ready { IsReady (subjects.Pair sets.now) }
    ensures { IsReplayed name.now P (given_of (subjects.Pair sets.now)) bytes.now result }
{
    let input = Input::Pair {
        x: &sets.x,
        a: &sets.y,
    };
    let claim = claimed(alloc, field, name, bytes, &input)?;
    Ok(told_of_pair(claim))
}

// The same of a map.
fn accept_map<const P: u16>(
    alloc: Global,
    field: Field<P>,
    name: &Name,
    bytes: &[u8],
    map: &PairMap,
) -> Result<Accepted, Fault>
    requires header { IsHeader bytes.now (header_of kinds.Map P) }
    requires fits { IsFitting map.now }
    requires ready { IsReady (subjects.Map map.now) }
    ensures { IsReplayed name.now P (given_of (subjects.Map map.now)) bytes.now result }
{
    let input = Input::Map {
        map: &map.map,
        x: &map.x,
        a: &map.a,
        y: &map.y,
        b: &map.b,
    };
    let claim = claimed(alloc, field, name, bytes, &input)?;
    let report = told_of_map(alloc, field, claim)?;
    Ok(report)
}

// What a witness claims, or the refusal by its first line that fails.
fn claimed<const P: u16>(
    alloc: Global,
    field: Field<P>,
    name: &Name,
    bytes: &[u8],
    input: &Input,
) -> Result<Claim<P>, Fault>
    requires header { IsHeaded 1 P input.now bytes.now }
    requires input { IsWitnessInput input.now }
    requires limits { IsWithinTables (given_by input.now) }
    ensures ok { IfOk result (ShowsTables input.now bytes.now) }
    ensures err { IfErr result (λ fault.
        FailsBy name.now P (given_by input.now) bytes.now fault ⊎ (fault ≡ Fault.OutOfMemory)) }
{
    match replay(alloc, field, bytes, input) {
        Ok(claim) => Ok(claim),
        Err(WitnessFault::At { line, law }) => Err(law_fails(alloc, name, line, told_law(law))),
        Err(WitnessFault::NoMemory) => Err(Fault::OutOfMemory),
    }
}

// What is told of the claim on a pair.
fn told_of_pair<const P: u16>(claim: Claim<P>) -> Accepted
    ensures { TellsPair claim.entry result }
{
    let Claim {
        domain,
        range: _,
        matrices: _,
    } = claim;
    Accepted {
        domain: Dimensions::of(domain),
        map: None,
    }
}

// What is told of the claim on a map.
fn told_of_map<const P: u16>(
    alloc: Global,
    field: Field<P>,
    claim: Claim<P>,
) -> Result<Accepted, NoMemory>
    ensures { IfOk result (TellsMap P claim.entry) }
{
    let Claim {
        domain,
        range,
        matrices,
    } = claim;
    let tables = tables_of(alloc, &matrices)?;
    let ranks = ranks_of(alloc, field, &matrices)?;
    Ok(Accepted {
        domain: Dimensions::of(domain),
        map: Some(AcceptedMap {
            range: Dimensions::of(range),
            matrices: tables,
            ranks,
        }),
    })
}
