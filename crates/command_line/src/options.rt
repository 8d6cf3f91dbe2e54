//! What the options say.
ghost use Rattle.std.specs.Prelude.{◌≡◌, IfSome};
ghost use Rattle.std.specs.Option.{option_map};
ghost use Rattle.field_mod.specs.Moduli.{IsModulus};
ghost use Rattle.command_line.specs.Forms.{setting_of};
ghost use Rattle.command_line.specs.Words.{modulus_in, modulus_named, options_in, value_in};

use crate::arguments::is_set;
use crate::choice::{Choice, Setting};
use crate::modulus::modulus_named;
use faults::Name;
use std::marker::Model;

/// What the options say, with what they leave open by its usual value.
#[derive(Debug, Drop)]
pub struct Options {
    modulus: u16,
    settings: Vec<Setting>,
}

impl Model for Options {
    ghost use Rattle.field_mod.specs.Moduli.{IsModulus};
    ghost use Rattle.command_line.specs.Words.{Chosen, with_modulus};

    ghost Value = { Chosen };

    ghost view = { λ o. with_modulus o.settings.items o.modulus };

    ghost invariant = { λ o. IsModulus o.modulus };
}

impl Options {
    /// What the options say as they stand among the words.
    pub fn of(settings: Vec<Setting>) -> Option<Options>
        ensures { result ≡ options_in settings.items }
    {
        let modulus = modulus_in(&settings)?;
        Some(Options { modulus, settings })
    }

    /// The modulus of the coefficients.
    pub fn modulus(&self) -> u16
        ensures value { result ≡ self.now.modulus }
        ensures table { IsModulus self.now.modulus }
    {
        self.modulus
    }

    /// Whether the cycles are printed, as they are with matrices.
    pub fn cycles(&self) -> bool
        ensures { result ≡ self.now.cycles }
    {
        is_set(Choice::Cycles, &self.settings) || is_set(Choice::Matrix, &self.settings)
    }

    /// Whether the counts are printed.
    pub fn stats(&self) -> bool
        ensures { result ≡ self.now.stats }
    {
        is_set(Choice::Stats, &self.settings)
    }

    /// The file of a map, where one is named.
    pub fn map(&self) -> Option<&Name>
        ensures { option_map (λ name. name.now) result ≡ self.now.map }
    {
        value_in(&self.settings, Choice::Map)
    }

    /// Whether the matrices of a map are printed.
    pub fn matrix(&self) -> bool
        ensures { result ≡ self.now.matrix }
    {
        is_set(Choice::Matrix, &self.settings)
    }

    /// Whether the index matrices of a map are printed.
    pub fn index(&self) -> bool
        ensures { result ≡ self.now.index }
    {
        is_set(Choice::Index, &self.settings)
    }

    /// The file that a witness is written to, where one is named.
    pub fn witness(&self) -> Option<&Name>
        ensures { option_map (λ name. name.now) result ≡ self.now.witness }
    {
        value_in(&self.settings, Choice::Witness)
    }

    /// Whether a set is printed, and nothing of its homology.
    pub fn set_alone(&self) -> bool
        ensures { result ≡ self.now.set_alone }
    {
        is_set(Choice::SetAlone, &self.settings)
    }
}

// The modulus that the options set; without one it is 2.
fn modulus_in(settings: &[Setting]) -> Option<u16>
    ensures value { result ≡ modulus_in settings.now }
    ensures table { IfSome result IsModulus }
{
    match setting_of(settings, Choice::Modulus) {
        Some(setting) => modulus_of(setting),
        None => Some(2),
    }
}

// The modulus that an option names.
fn modulus_of(setting: &Setting) -> Option<u16>
    ensures value { result ≡ modulus_named setting.now.value }
    ensures table { IfSome result IsModulus }
{
    match &setting.value {
        Some(word) => modulus_named(word.as_str()),
        None => None,
    }
}

// The first of the settings that is of this option.
fn setting_of(settings: &[Setting], choice: Choice) -> Option<&Setting>
    ensures { option_map (λ setting. setting.now) result ≡ setting_of settings.now choice }
{
    for setting in settings {
        if setting.choice.is(choice) {
            return Some(setting);
        }
    }
    None
}

// The value of an option, where one is set.
fn value_in(settings: &[Setting], choice: Choice) -> Option<&Name>
    ensures { option_map (λ name. name.now) result ≡ value_in settings.now choice }
{
    let setting = setting_of(settings, choice)?;
    setting.value.as_ref()
}
