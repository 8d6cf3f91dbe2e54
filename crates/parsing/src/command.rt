//! From words to what they ask for.
ghost use Rattle.std.specs.Prelude.{◌≡◌, ◌⊎◌, Some};
ghost use Rattle.command_line.specs.Forms.{spoken};
ghost use Rattle.command_line.specs.Words.{command_of, command_with, IsDue};
ghost use Rattle.parsing.specs.Syntax.{IsListed};

use crate::found::arguments_of;
use crate::syntax::syntax_of;
use clap::error::ErrorKind;
use command_line::{Command, Form};
use faults::{Fault, Name};
use std::alloc::Global;

/// What the words ask for, or the refusal of words that are of no form. The words are those after
/// the program's name.
pub fn command_of(alloc: Global, words: &[String]) -> Result<Command, Fault>
    ensures { IsDue (command_of (spoken words.now)) result }
{
    let Some((name, words)) = words.split_first() else {
        return Err(Fault::NoTool);
    };
    match Form::named(name.as_str()) {
        Some(form) => command_by(alloc, &form, words),
        None => Err(Fault::NoTool),
    }
}

// What the words after a tool's name ask for.
fn command_by(alloc: Global, form: &Form, words: &[String]) -> Result<Command, Fault>
    requires { IsListed form.now }
    ensures { IsDue (command_with (Some form.now) (spoken words.now)) result }
{
    let matches = match syntax_of(alloc, form)?.try_get_matches_from(words) {
        Ok(matches) => matches,
        Err(error) if error.kind() == ErrorKind::OutOfMemory => return Err(Fault::OutOfMemory),
        Err(_) => return Err(not_a_form(alloc, form.name())),
    };
    let arguments = arguments_of(alloc, form, &matches)?;
    match Command::of(form, arguments) {
        Some(command) => Ok(command),
        None => Err(not_a_form(alloc, form.name())),
    }
}

// The refusal of words that are of no form of the tool of this name.
fn not_a_form(alloc: Global, name: &str) -> Fault
    ensures { (result ≡ Fault.NotAForm name.now) ⊎ (result ≡ Fault.OutOfMemory) }
{
    match Name::of(alloc, name) {
        Ok(tool) => Fault::NotAForm { tool },
        Err(_) => Fault::OutOfMemory,
    }
}
