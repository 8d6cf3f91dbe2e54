//! What all words after a tool's name say.
ghost use Rattle.std.specs.Prelude.{◌≡◌, ◌≤◌, length, true, OnOk};
ghost use Rattle.command_line.specs.Forms.{Operand, Set, nothing_spoken, after, is_set, are_once, has_alone, asks_of_map, agree, fits};

use crate::choice::{Choice, Setting};
use crate::form::Form;
use crate::operands::are_operands;
use faults::Name;
use std::alloc::{AllocError as NoMemory, Global};
use std::marker::Model;

/// What words say: the operands and the options, each in their order.
#[derive(Drop)]
pub struct Arguments {
    operands: Vec<Name>,
    settings: Vec<Setting>,
}

impl Model for Arguments {
    ghost use Rattle.command_line.specs.Forms.{Spoken};

    ghost Value = { Spoken };

    ghost view = { λ a. record { operands = a.operands.items; settings = a.settings.items } };
}

impl Arguments {
    /// Nothing was said.
    pub fn new(alloc: Global) -> Arguments
        ensures { result ≡ nothing_spoken }
    {
        Arguments {
            operands: Vec::new(alloc),
            settings: Vec::new(alloc),
        }
    }

    /// One more operand.
    pub fn add_operand(&mut self, operand: Name) -> Result<(), NoMemory>
        ensures { OnOk result (self.new ≡ after self.old (Operand operand)) }
    {
        self.operands.push(operand)?;
        Ok(())
    }

    /// One more option.
    pub fn add_setting(&mut self, setting: Setting) -> Result<(), NoMemory>
        ensures { OnOk result (self.new ≡ after self.old (Set setting)) }
    {
        self.settings.push(setting)?;
        Ok(())
    }

    /// Whether there are as many operands as the form takes, all of them words that the tool takes,
    /// and options that may stand together, each once.
    pub fn fits(&self, form: &Form) -> bool
        ensures fits { result ≡ fits form.now self.now }
        ensures some { result ≡ true → 1 ≤ length self.now.operands }
    {
        form.fewest() <= self.operands.len()
            && self.operands.len() <= form.most()
            && are_operands(form.tool(), &self.operands)
            && agree(&self.settings)
            && are_once(&self.settings)
    }

    /// The options.
    pub fn settings(&self) -> &[Setting]
        ensures { result.now ≡ self.now.settings }
    {
        self.settings.as_slice()
    }

    /// The operands and the options.
    pub fn into_parts(self) -> (Vec<Name>, Vec<Setting>)
        ensures operands { result.0.items ≡ self.operands }
        ensures settings { result.1.items ≡ self.settings }
    {
        (self.operands, self.settings)
    }
}

// Whether each option is set once.
fn are_once(settings: &[Setting]) -> bool
    ensures { result ≡ are_once settings.now }
{
    for (at, setting) in settings.iter().enumerate() {
        if is_set(setting.choice, &settings[at + 1..]) {
            return false;
        }
    }
    true
}

// Whether no other option stands beside one that stands alone, and a map beside what is asked of
// it.
fn agree(settings: &[Setting]) -> bool
    ensures { result ≡ agree settings.now }
{
    (settings.len() <= 1 || !has_alone(settings))
        && (is_set(Choice::Map, settings) || !asks_of_map(settings))
}

fn has_alone(settings: &[Setting]) -> bool
    ensures { result ≡ has_alone settings.now }
{
    settings.iter().any(|setting| setting.choice.stands_alone())
}

// Whether something is asked that maps alone have.
fn asks_of_map(settings: &[Setting]) -> bool
    ensures { result ≡ asks_of_map settings.now }
{
    is_set(Choice::Matrix, settings) || is_set(Choice::Index, settings)
}

/// Whether the option is set.
pub fn is_set(choice: Choice, settings: &[Setting]) -> bool
    ensures { result ≡ is_set choice settings.now }
{
    settings.iter().any(|setting| setting.choice.is(choice))
}
