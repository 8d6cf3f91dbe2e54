//! From a command to its answer, for whichever tool it names.
ghost use Rattle.loading.specs.Jobs.{Answers};
ghost use Rattle.all_tools.specs.Jobs.{task_by, pair_of, two_files, chain_of, holes_of, values_of, map_of, x_of, replay_of};
ghost use Rattle.tool.specs.Tasks.{Provides, alone};
ghost use Rattle.pair_tool.specs.Jobs.{pair_job};
ghost use Rattle.pair_witness.specs.Jobs.{witness_task};
ghost use Rattle.set_tools.specs.Jobs.{combination_job, neighbours_job, cells_job};
ghost use Rattle.chain_tool.specs.Jobs.{chain_job};
ghost use Rattle.gen_tool.specs.Jobs.{holes_job};
ghost use Rattle.map_homology.specs.Jobs.{map_job};
ghost use Rattle.map_witness.specs.Jobs.{map_witness_task};
ghost use Rattle.map_tools.specs.Jobs.{values_job};
ghost use Rattle.replay_tool.specs.Jobs.{replay_job};

use crate::jobs::{
    chain_job, combination_job, holes_job, map_job, pair_job, replay_job, values_job,
};
use chain_tool::homology_of_file;
use command_line::{Command, ToolName};
use faults::{Fault, Name};
use gen_tool::generate;
use loading::Answer;
use map_homology::homology_of_map;
use map_tools::check_map;
use map_witness::witnessed_map;
use outside::Files;
use pair_tool::homology_of_pair;
use pair_witness::witnessed_homology;
use replay_tool::replayed;
use set_tools::{Combination, combine};
use std::alloc::Global;
use tool::{Output, alone};

/// What a tool writes to answer a command, or the first refusal.
pub fn answer_by<F: Files>(
    alloc: Global,
    files: &mut F,
    tool: ToolName,
    command: &Command,
) -> Result<Output, Fault>
    ensures { Provides (task_by tool command.now) (F.seen files.old) (F.seen files.new) result }
{
    match tool {
        ToolName::Homcubes => pair_output(alloc, files, command),
        ToolName::MapHomology => map_output(alloc, files, command),
        ToolName::Cubunion => union_output(alloc, files, command),
        ToolName::Cubinter => intersection_output(alloc, files, command),
        ToolName::Cubnbhd => neighbours_output(alloc, files, command),
        ToolName::Cubcells => cells_output(alloc, files, command),
        ToolName::Homchain => chain_output(alloc, files, command),
        ToolName::Gen => holes_output(alloc, files, command),
        ToolName::Chkmvmap => values_output(alloc, files, command),
        ToolName::Replay => replay_output(alloc, files, command),
    }
}

// The homology of a set or a pair, and its witness where one is wanted.
fn pair_output<F: Files>(alloc: Global, files: &mut F, command: &Command) -> Result<Output, Fault>
    ensures { Provides (task_by ToolName.Homcubes command.now)
        (F.seen files.old) (F.seen files.new) result }
{
    match command.options().witness() {
        Some(file) => pair_witnessed(alloc, files, command, file),
        None => pair_alone(alloc, files, command),
    }
}

// The homology of a set or a pair with no witness.
fn pair_alone<F: Files>(alloc: Global, files: &mut F, command: &Command) -> Result<Output, Fault>
    ensures { Provides (alone (pair_job (pair_of command.now)))
        (F.seen files.old) (F.seen files.new) result }
{
    alone(pair_answer(alloc, files, command))
}

// The matrices of a map, and its witness where one is wanted.
fn map_output<F: Files>(alloc: Global, files: &mut F, command: &Command) -> Result<Output, Fault>
    ensures { Provides (task_by ToolName.MapHomology command.now)
        (F.seen files.old) (F.seen files.new) result }
{
    match command.options().witness() {
        Some(file) => map_witnessed(alloc, files, command, file),
        None => map_alone(alloc, files, command),
    }
}

// The matrices of a map with no witness.
fn map_alone<F: Files>(alloc: Global, files: &mut F, command: &Command) -> Result<Output, Fault>
    ensures { Provides (alone (map_job (map_of command.now)))
        (F.seen files.old) (F.seen files.new) result }
{
    alone(map_answer(alloc, files, command))
}

// The union of two sets, alone.
fn union_output<F: Files>(alloc: Global, files: &mut F, command: &Command) -> Result<Output, Fault>
    ensures { Provides (task_by ToolName.Cubunion command.now)
        (F.seen files.old) (F.seen files.new) result }
{
    alone(combination_answer(alloc, files, command, Combination::Union))
}

// The intersection of two sets, alone.
fn intersection_output<F: Files>(
    alloc: Global,
    files: &mut F,
    command: &Command,
) -> Result<Output, Fault>
    ensures { Provides (task_by ToolName.Cubinter command.now)
        (F.seen files.old) (F.seen files.new) result }
{
    alone(combination_answer(alloc, files, command, Combination::Intersection))
}

// The cubes that touch a set, alone.
fn neighbours_output<F: Files>(
    alloc: Global,
    files: &mut F,
    command: &Command,
) -> Result<Output, Fault>
    ensures { Provides (task_by ToolName.Cubnbhd command.now)
        (F.seen files.old) (F.seen files.new) result }
{
    alone(neighbours_answer(alloc, files, command))
}

// The cells of a set, alone.
fn cells_output<F: Files>(alloc: Global, files: &mut F, command: &Command) -> Result<Output, Fault>
    ensures { Provides (task_by ToolName.Cubcells command.now)
        (F.seen files.old) (F.seen files.new) result }
{
    alone(cells_answer(alloc, files, command))
}

// The homology of a chain file, alone.
fn chain_output<F: Files>(alloc: Global, files: &mut F, command: &Command) -> Result<Output, Fault>
    ensures { Provides (task_by ToolName.Homchain command.now)
        (F.seen files.old) (F.seen files.new) result }
{
    alone(chain_answer(alloc, files, command))
}

// Squares with holes, alone.
fn holes_output<F: Files>(alloc: Global, files: &mut F, command: &Command) -> Result<Output, Fault>
    ensures { Provides (task_by ToolName.Gen command.now)
        (F.seen files.old) (F.seen files.new) result }
{
    alone(holes_answer(alloc, files, command))
}

// The test of the values of a map, alone.
fn values_output<F: Files>(alloc: Global, files: &mut F, command: &Command) -> Result<Output, Fault>
    ensures { Provides (task_by ToolName.Chkmvmap command.now)
        (F.seen files.old) (F.seen files.new) result }
{
    alone(values_answer(alloc, files, command))
}

// The test of a witness, alone.
fn replay_output<F: Files>(alloc: Global, files: &mut F, command: &Command) -> Result<Output, Fault>
    ensures { Provides (task_by ToolName.Replay command.now)
        (F.seen files.old) (F.seen files.new) result }
{
    alone(replay_answer(alloc, files, command))
}

// The cubes that touch a set.
fn neighbours_answer<F: Files>(
    alloc: Global,
    files: &mut F,
    command: &Command,
) -> Result<Answer, Fault>
    ensures { Answers (neighbours_job (x_of command.now))
        (F.seen files.old) (F.seen files.new) result }
{
    set_tools::neighbours(alloc, files, command.first())
}

// The cells of a set.
fn cells_answer<F: Files>(alloc: Global, files: &mut F, command: &Command) -> Result<Answer, Fault>
    ensures { Answers (cells_job (x_of command.now))
        (F.seen files.old) (F.seen files.new) result }
{
    set_tools::cells(alloc, files, command.first())
}

// The homology of a set or a pair with its witness.
fn pair_witnessed<F: Files>(
    alloc: Global,
    files: &mut F,
    command: &Command,
    file: &Name,
) -> Result<Output, Fault>
    ensures { Provides (witness_task (pair_of command.now) file.now)
        (F.seen files.old) (F.seen files.new) result }
{
    let job = pair_job(alloc, command)?;
    witnessed_homology(alloc, files, &job, file)
}

// The homology of a set or a pair.
fn pair_answer<F: Files>(alloc: Global, files: &mut F, command: &Command) -> Result<Answer, Fault>
    ensures { Answers (pair_job (pair_of command.now))
        (F.seen files.old) (F.seen files.new) result }
{
    let job = pair_job(alloc, command)?;
    homology_of_pair(alloc, files, &job)
}

// The union or the intersection of two sets.
fn combination_answer<F: Files>(
    alloc: Global,
    files: &mut F,
    command: &Command,
    combination: Combination,
) -> Result<Answer, Fault>
    ensures { Answers (combination_job (two_files combination command.now))
        (F.seen files.old) (F.seen files.new) result }
{
    let job = combination_job(alloc, command, combination)?;
    combine(alloc, files, &job)
}

// The homology of a chain file.
fn chain_answer<F: Files>(alloc: Global, files: &mut F, command: &Command) -> Result<Answer, Fault>
    ensures { Answers (chain_job (chain_of command.now))
        (F.seen files.old) (F.seen files.new) result }
{
    let job = chain_job(alloc, command)?;
    homology_of_file(alloc, files, &job)
}

// Squares with holes, or their homology.
fn holes_answer<F: Files>(alloc: Global, files: &mut F, command: &Command) -> Result<Answer, Fault>
    ensures { Answers (holes_job (holes_of command.now))
        (F.seen files.old) (F.seen files.new) result }
{
    let job = holes_job(command);
    generate(alloc, files, &job)
}

// Whether the values of a map are acyclic.
fn values_answer<F: Files>(alloc: Global, files: &mut F, command: &Command) -> Result<Answer, Fault>
    ensures { Answers (values_job (values_of command.now))
        (F.seen files.old) (F.seen files.new) result }
{
    let job = values_job(alloc, command)?;
    check_map(alloc, files, &job)
}

// The map that a map between two pairs induces in homology.
fn map_answer<F: Files>(alloc: Global, files: &mut F, command: &Command) -> Result<Answer, Fault>
    ensures { Answers (map_job (map_of command.now))
        (F.seen files.old) (F.seen files.new) result }
{
    let job = map_job(alloc, command)?;
    homology_of_map(alloc, files, &job)
}

// The same with a witness of it.
fn map_witnessed<F: Files>(
    alloc: Global,
    files: &mut F,
    command: &Command,
    file: &Name,
) -> Result<Output, Fault>
    ensures { Provides (map_witness_task (map_of command.now) file.now)
        (F.seen files.old) (F.seen files.new) result }
{
    let job = map_job(alloc, command)?;
    witnessed_map(alloc, files, &job, file)
}

// Whether a witness meets the laws, and what it shows.
fn replay_answer<F: Files>(alloc: Global, files: &mut F, command: &Command) -> Result<Answer, Fault>
    ensures { Answers (replay_job (replay_of command.now))
        (F.seen files.old) (F.seen files.new) result }
{
    let job = replay_job(alloc, command)?;
    replayed(alloc, files, &job)
}
