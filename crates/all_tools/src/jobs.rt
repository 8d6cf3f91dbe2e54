//! Commands as the jobs of tools.
ghost use Rattle.std.specs.Prelude.{◌≡◌, ◌≤◌, [], Ok, None, Some, option_copied, unwrap_or};
ghost use Rattle.loading.specs.Steps.{IsDue};
ghost use Rattle.all_tools.specs.Jobs.{pair_of, two_files, chain_of, holes_of, values_of, map_of, map_files_of, replay_of, replay_files_of, replay_files_by};

use basis_reports::Modulus;
use chain_tool::ChainJob;
use command_line::Command;
use faults::{Fault, Name};
use gen_tool::HolesJob;
use map_homology::MapJob;
use map_tools::ValuesJob;
use pair_maps::MapFiles;
use pair_tool::PairJob;
use replay_tool::{ReplayFiles, ReplayJob};
use set_tools::{Combination, CombinationJob};
use std::alloc::Global;

/// A set, or a set and a subset, whose homology is wanted.
pub fn pair_job(alloc: Global, command: &Command) -> Result<PairJob, Fault>
    ensures { IsDue (Ok (pair_of command.now)) result }
{
    let x = command.first().copy(alloc)?;
    let a = match command.second() {
        Some(a) => Some(a.copy(alloc)?),
        None => None,
    };
    Ok(PairJob {
        x,
        a,
        modulus: Modulus::of_table(command.options().modulus()),
        cycles: command.options().cycles(),
        stats: command.options().stats(),
    })
}

/// Two sets that are to be combined.
pub fn combination_job(
    alloc: Global,
    command: &Command,
    combination: Combination,
) -> Result<CombinationJob, Fault>
    ensures { IsDue (Ok (two_files combination command.now)) result }
{
    let x = command.first().copy(alloc)?;
    let y = match command.second() {
        Some(y) => y.copy(alloc)?,
        None => Name::of(alloc, "")?,
    };
    Ok(CombinationJob { x, y, combination })
}

/// A chain file whose homology is wanted.
pub fn chain_job(alloc: Global, command: &Command) -> Result<ChainJob, Fault>
    ensures { IsDue (Ok (chain_of command.now)) result }
{
    let file = command.first().copy(alloc)?;
    Ok(ChainJob {
        file,
        modulus: Modulus::of_table(command.options().modulus()),
        cycles: command.options().cycles(),
    })
}

/// Squares with holes that are wanted, or their homology.
pub fn holes_job(command: &Command) -> HolesJob
    ensures job { result ≡ holes_of command.now }
    ensures few { result.holes ≤ 527 }
{
    HolesJob {
        holes: command.holes().unwrap_or(1),
        set_alone: command.options().set_alone(),
        modulus: Modulus::of_table(command.options().modulus()),
    }
}

/// A map between two sets whose values are to be tested.
pub fn values_job(alloc: Global, command: &Command) -> Result<ValuesJob, Fault>
    ensures { IsDue (Ok (values_of command.now)) result }
{
    let map = command.first().copy(alloc)?;
    let x = copy_or_empty(alloc, command.second())?;
    let y = copy_or_empty(alloc, command.third())?;
    let files = MapFiles {
        map,
        x,
        a: None,
        y,
        b: None,
    };
    Ok(ValuesJob {
        files,
        modulus: Modulus::of_table(command.options().modulus()),
    })
}

/// A map between two pairs that is wanted in homology.
pub fn map_job(alloc: Global, command: &Command) -> Result<MapJob, Fault>
    ensures { IsDue (Ok (map_of command.now)) result }
{
    let options = command.options();
    let files = map_files(alloc, command)?;
    Ok(MapJob {
        files,
        modulus: Modulus::of_table(options.modulus()),
        cycles: options.cycles(),
        matrix: options.matrix(),
        stats: options.stats(),
        index: options.index(),
    })
}

// The files of a map between two pairs.
fn map_files(alloc: Global, command: &Command) -> Result<MapFiles, Fault>
    ensures { IsDue (Ok (map_files_of command.now)) result }
{
    let map = copy_or_empty(alloc, command.options().map())?;
    let x = command.first().copy(alloc)?;
    let a = copy_or_empty(alloc, command.second())?;
    let y = copy_or_empty(alloc, command.third())?;
    let b = copy_or_empty(alloc, command.fourth())?;
    Ok(MapFiles {
        map,
        x,
        a: Some(a),
        y,
        b: Some(b),
    })
}

/// A witness file that is to be tested.
pub fn replay_job(alloc: Global, command: &Command) -> Result<ReplayJob, Fault>
    ensures { IsDue (Ok (replay_of command.now)) result }
{
    let witness = command.first().copy(alloc)?;
    let files = replay_files(alloc, command)?;
    Ok(ReplayJob { witness, files })
}

// The files that a witness speaks of.
fn replay_files(alloc: Global, command: &Command) -> Result<ReplayFiles, Fault>
    ensures { IsDue (Ok (replay_files_of command.now)) result }
{
    match command.fourth() {
        Some(a) => replay_map(alloc, command, a),
        None => replay_pair(alloc, command),
    }
}

// A set, or a set and a subset, of which a witness speaks.
fn replay_pair(alloc: Global, command: &Command) -> Result<ReplayFiles, Fault>
    ensures { IsDue (Ok (replay_files_by None command.now)) result }
{
    let x = copy_or_empty(alloc, command.second())?;
    let a = match command.third() {
        Some(a) => Some(a.copy(alloc)?),
        None => None,
    };
    Ok(ReplayFiles::Pair { x, a })
}

// A map and two pairs of which a witness speaks.
fn replay_map(alloc: Global, command: &Command, a: &Name) -> Result<ReplayFiles, Fault>
    ensures { IsDue (Ok (replay_files_by (Some a.now) command.now)) result }
{
    let map = copy_or_empty(alloc, command.second())?;
    let x = copy_or_empty(alloc, command.third())?;
    let a = a.copy(alloc)?;
    let y = copy_or_empty(alloc, command.fifth())?;
    let b = copy_or_empty(alloc, command.sixth())?;
    Ok(ReplayFiles::Map(MapFiles {
        map,
        x,
        a: Some(a),
        y,
        b: Some(b),
    }))
}

// A name once more, or the empty one where there is none.
fn copy_or_empty(alloc: Global, name: Option<&Name>) -> Result<Name, Fault>
    ensures { IsDue (Ok (unwrap_or (option_copied name.entry) [])) result }
{
    let copy = match name {
        Some(name) => name.copy(alloc)?,
        None => Name::of(alloc, "")?,
    };
    Ok(copy)
}
