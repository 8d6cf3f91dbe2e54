//! The command of a tool's form, by which `clap` parses the words after the tool's name.
ghost use Rattle.std.specs.Prelude.{◌≡◌, false, IfOk};
ghost use Rattle.clap.specs.Words.{app_of, rule_of};
ghost use Rattle.command_line.specs.Forms.{option_name};
ghost use Rattle.parsing.specs.Syntax.{bare, flag_rule, option_rule, operand_rule, syntax};
ghost use Rattle.parsing.specs.Syntax.{valued_rule};

use clap::builder::ValueParser;
use clap::{Arg, ArgAction, Command};
use command_line::{Choice, Form};
use std::alloc::{AllocError as NoMemory, Global};

/// The id of the operands. An option has its name as its id, which begins with two dashes.
pub const OPERANDS: &str = "operands";

/// The command of a form: operands, one at least, and the form's options. It has no help and no
/// version, and takes no empty operand or value.
pub fn syntax_of<'a>(alloc: Global, form: &Form) -> Result<Command<'a>, NoMemory>
    ensures { IfOk result (λ command. app_of command ≡ syntax form.now) }
{
    let name: &'a str = form.name();
    let mut command = bare_command(alloc, name).arg(operands(alloc))?;
    for choice in form.options() {
        command = command.arg(option(alloc, *choice))?;
    }
    Ok(command)
}

// A command without arguments, help and version, whose words are all arguments.
fn bare_command<'a>(alloc: Global, name: &'a str) -> Command<'a>
    ensures { app_of result ≡ bare name.now }
{
    Command::new(alloc, name)
        .no_binary_name(true)
        .disable_help_flag(true)
        .disable_version_flag(true)
}

// The argument that takes the operands.
fn operands<'a>(alloc: Global) -> Arg<'a>
    ensures rule { rule_of result ≡ operand_rule }
    ensures local { result.global ≡ false }
{
    Arg::new(alloc, OPERANDS)
        .action(ArgAction::Append)
        .value_parser(ValueParser::NonEmptyString)
        .required(true)
}

// The argument of an option.
fn option<'a>(alloc: Global, choice: Choice) -> Arg<'a>
    ensures rule { rule_of result ≡ option_rule choice }
    ensures local { result.global ≡ false }
{
    if choice.takes_value() {
        valued_option(alloc, choice)
    } else {
        flag(alloc, choice)
    }
}

// An option with a value.
fn valued_option<'a>(alloc: Global, choice: Choice) -> Arg<'a>
    ensures rule { rule_of result ≡ valued_rule (option_name choice) }
    ensures local { result.global ≡ false }
{
    let name: &'a str = choice.name();
    let long_name: &'a str = choice.long_name();
    Arg::new(alloc, name)
        .long(long_name)
        .action(ArgAction::Set)
        .value_parser(ValueParser::NonEmptyString)
}

// An option without a value.
fn flag<'a>(alloc: Global, choice: Choice) -> Arg<'a>
    ensures rule { rule_of result ≡ flag_rule (option_name choice) }
    ensures local { result.global ≡ false }
{
    let name: &'a str = choice.name();
    let long_name: &'a str = choice.long_name();
    Arg::new(alloc, name)
        .long(long_name)
        .action(ArgAction::SetTrue)
}
