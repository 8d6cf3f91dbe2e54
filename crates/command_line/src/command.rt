//! What words ask for.
ghost use Rattle.std.specs.Prelude.{◌≡◌, ◌≤◌, IfSome};
ghost use Rattle.std.specs.Option.{option_map};
ghost use Rattle.command_line.specs.Words.{request_by, request_of, first, second, third, fourth, fifth, sixth};
ghost use Rattle.command_line.specs.Operands.{holes_named};

use crate::arguments::Arguments;
use crate::form::{Form, ToolName};
use crate::operands::holes_named;
use crate::options::Options;
use faults::Name;
use std::marker::Model;

/// What words ask for: a tool, its operands, one at least, and what the options say.
#[derive(Drop)]
pub struct Command {
    tool: ToolName,
    operands: Vec<Name>,
    options: Options,
}

impl Model for Command {
    ghost use Rattle.std.specs.Prelude.{◌≤◌, length};
    ghost use Rattle.command_line.specs.Words.{Request, with_options};

    ghost Value = { Request };

    ghost view = { λ c. with_options c.tool c.operands.items c.options };

    ghost invariant = { λ c. 1 ≤ length c.operands.items };
}

impl Command {
    /// What arguments ask of a tool, where they are of its form.
    pub fn of(form: &Form, arguments: Arguments) -> Option<Command>
        ensures { result ≡ request_of form.now arguments }
    {
        Command::by(&form.with(arguments.settings()), arguments)
    }

    // The same by the form that the options have chosen.
    fn by(form: &Form, arguments: Arguments) -> Option<Command>
        ensures { result ≡ request_by form.now arguments }
    {
        if !arguments.fits(form) {
            return None;
        }
        let tool = form.tool();
        let (operands, settings) = arguments.into_parts();
        let options = Options::of(settings)?;
        Some(Command {
            tool,
            operands,
            options,
        })
    }

    /// The tool.
    pub fn tool(&self) -> ToolName
        ensures { result ≡ self.now.tool }
    {
        self.tool
    }

    /// The first operand.
    pub fn first(&self) -> &Name
        ensures { result.now ≡ first self.now.operands }
    {
        &self.operands[0]
    }

    /// The second operand, where there is one.
    pub fn second(&self) -> Option<&Name>
        ensures { option_map (λ name. name.now) result ≡ second self.now.operands }
    {
        self.operands.get(1)
    }

    /// The third operand, where there is one.
    pub fn third(&self) -> Option<&Name>
        ensures { option_map (λ name. name.now) result ≡ third self.now.operands }
    {
        self.operands.get(2)
    }

    /// The fourth operand, where there is one.
    pub fn fourth(&self) -> Option<&Name>
        ensures { option_map (λ name. name.now) result ≡ fourth self.now.operands }
    {
        self.operands.get(3)
    }

    /// The fifth operand, where there is one.
    pub fn fifth(&self) -> Option<&Name>
        ensures { option_map (λ name. name.now) result ≡ fifth self.now.operands }
    {
        self.operands.get(4)
    }

    /// The sixth operand, where there is one.
    pub fn sixth(&self) -> Option<&Name>
        ensures { option_map (λ name. name.now) result ≡ sixth self.now.operands }
    {
        self.operands.get(5)
    }

    /// The number of holes that the operands name, from 1 to 527, where they name one.
    pub fn holes(&self) -> Option<u16>
        ensures value { result ≡ holes_named self.now.operands }
        ensures within { IfSome result (λ n. (1 ≤ n) × (n ≤ 527)) }
    {
        holes_named(&self.operands)
    }

    /// What the options say.
    pub fn options(&self) -> &Options
        ensures { result.now ≡ self.now.options }
    {
        &self.options
    }
}
