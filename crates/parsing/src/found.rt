//! From what `clap` found to arguments.
ghost use Rattle.std.specs.Prelude.{◌≡◌, ◌++◌, IfOk, OnOk};
ghost use Rattle.clap.specs.Words.{found_of, rows_of};
ghost use Rattle.command_line.specs.Forms.{Spoken};
ghost use Rattle.parsing.specs.Found.{Finds, setting_of, settings_of, in_table};

use crate::syntax::OPERANDS;
use clap::ArgMatches;
use command_line::{Arguments, Choice, Form, Setting};
use faults::Name;
use std::alloc::{AllocError as NoMemory, Global};

/// What the words said, with the options in the order of the form.
pub fn arguments_of(
    alloc: Global,
    form: &Form,
    matches: &ArgMatches<'_>,
) -> Result<Arguments, NoMemory>
    ensures { (said : Spoken) → Finds said (rows_of (found_of matches.now))
        → IfOk result (λ arguments. arguments ≡ in_table form.now.options said) }
{
    let mut arguments = Arguments::new(alloc);
    add_operands(alloc, &mut arguments, matches)?;
    add_settings(alloc, &mut arguments, form.options(), matches)?;
    Ok(arguments)
}

fn add_operands(
    alloc: Global,
    arguments: &mut Arguments,
    matches: &ArgMatches<'_>,
) -> Result<(), NoMemory>
    ensures { (said : Spoken) → Finds said (rows_of (found_of matches.now))
        → OnOk result (arguments.new ≡ record {
          operands = arguments.old.operands ++ said.operands;
          settings = arguments.old.settings;
        }) }
{
    let Some(words) = matches.get_strs(OPERANDS) else {
        return Ok(());
    };
    for word in words {
        let operand = Name::of(alloc, word)?;
        arguments.add_operand(operand)?;
    }
    Ok(())
}

fn add_settings(
    alloc: Global,
    arguments: &mut Arguments,
    options: &[Choice],
    matches: &ArgMatches<'_>,
) -> Result<(), NoMemory>
    ensures { (said : Spoken) → Finds said (rows_of (found_of matches.now))
        → OnOk result (arguments.new ≡ record {
          operands = arguments.old.operands;
          settings = arguments.old.settings ++ settings_of options.now said.settings;
        }) }
{
    for choice in options {
        if let Some(setting) = setting_found(alloc, *choice, matches)? {
            arguments.add_setting(setting)?;
        }
    }
    Ok(())
}

// An option with its value, where it was found.
fn setting_found(
    alloc: Global,
    choice: Choice,
    matches: &ArgMatches<'_>,
) -> Result<Option<Setting>, NoMemory>
    ensures { (said : Spoken) → Finds said (rows_of (found_of matches.now))
        → IfOk result (λ setting. setting ≡ setting_of said.settings choice) }
{
    if choice.takes_value() {
        let Some(value) = matches.get_str(choice.name()) else {
            return Ok(None);
        };
        let value = Some(Name::of(alloc, value)?);
        return Ok(Some(Setting { choice, value }));
    }
    if matches.get_flag(choice.name()) {
        return Ok(Some(Setting {
            choice,
            value: None,
        }));
    }
    Ok(None)
}
