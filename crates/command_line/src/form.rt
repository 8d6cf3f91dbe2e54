//! Tools by their names, and the forms of the words after them.
ghost use Rattle.std.specs.Prelude.{◌≡◌, ◌≤◌};
ghost use Rattle.command_line.specs.Forms.{form_named, form_with, named, option_name, option_named, row};

use crate::arguments::is_set;
use crate::choice::{Choice, Setting};
use std::marker::Model;

/// A tool of the program, by the name that words give it; the homology of maps is asked for by the
/// name of that of pairs with an option.
#[derive(Clone, Copy, Debug, PartialEq, Eq)]
pub enum ToolName {
    Homcubes,
    MapHomology,
    Cubunion,
    Cubinter,
    Cubnbhd,
    Cubcells,
    Homchain,
    Gen,
    Chkmvmap,
    Replay,
}

/// A row of the table of forms: a tool with its name, the fewest and the most operands, one at
/// least, and its options.
#[derive(Debug, Drop)]
pub struct Form {
    tool: ToolName,
    name: &'static str,
    fewest: usize,
    most: usize,
    options: &'static [Choice],
}

impl Model for Form {
    ghost use Rattle.std.specs.Prelude.{◌≤◌};
    ghost use Rattle.command_line.specs.Forms.{Row, row};

    ghost Value = { Row };

    ghost view = { λ f. row f.tool f.name.now f.fewest f.most f.options.now };

    ghost invariant = { λ f. 1 ≤ f.fewest };
}

// The options of the tools that compute homology.
const OF_HOMOLOGY: [Choice; 2] = [Choice::Modulus, Choice::Cycles];

// The options of the tool on pairs of sets and on maps between such pairs.
const OF_PAIRS: [Choice; 7] = [
    Choice::Modulus,
    Choice::Cycles,
    Choice::Stats,
    Choice::Map,
    Choice::Matrix,
    Choice::Index,
    Choice::Witness,
];

// The options of the tool on the values of maps.
const OF_MAPS: [Choice; 1] = [Choice::Modulus];

// The options of the generator.
const OF_GENERATOR: [Choice; 2] = [Choice::Modulus, Choice::SetAlone];

impl Form {
    /// The form of the tool of this name.
    pub fn named(word: &str) -> Option<Form>
        ensures { result ≡ form_named word.now }
    {
        match word {
            "homcubes" => Some(Form::of(ToolName::Homcubes, "homcubes", 1, 2, &OF_PAIRS)),
            "cubunion" => Some(Form::of(ToolName::Cubunion, "cubunion", 2, 2, &[])),
            "cubinter" => Some(Form::of(ToolName::Cubinter, "cubinter", 2, 2, &[])),
            "cubnbhd" => Some(Form::of(ToolName::Cubnbhd, "cubnbhd", 1, 1, &[])),
            "cubcells" => Some(Form::of(ToolName::Cubcells, "cubcells", 1, 1, &[])),
            "homchain" => Some(Form::of(ToolName::Homchain, "homchain", 1, 1, &OF_HOMOLOGY)),
            "gen" => Some(Form::of(ToolName::Gen, "gen", 2, 2, &OF_GENERATOR)),
            "chkmvmap" => Some(Form::of(ToolName::Chkmvmap, "chkmvmap", 3, 3, &OF_MAPS)),
            "replay" => Some(Form::of(ToolName::Replay, "replay", 2, 6, &[])),
            _ => None,
        }
    }

    /// The form that the options choose: with a map it is that of maps.
    pub fn with(&self, settings: &[Setting]) -> Form
        ensures { result ≡ form_with settings.now self.now }
    {
        if is_set(Choice::Map, settings) {
            return Form::of(ToolName::MapHomology, self.name, 4, 4, self.options);
        }
        Form::of(self.tool, self.name, self.fewest, self.most, self.options)
    }

    // A row of the table.
    fn of(
        tool: ToolName,
        name: &'static str,
        fewest: usize,
        most: usize,
        options: &'static [Choice],
    ) -> Form
        requires { 1 ≤ fewest }
        ensures { result ≡ row tool name.now fewest most options.now }
    {
        Form {
            tool,
            name,
            fewest,
            most,
            options,
        }
    }

    /// The tool.
    pub fn tool(&self) -> ToolName
        ensures { result ≡ self.now.tool }
    {
        self.tool
    }

    /// The tool's name.
    pub fn name(&self) -> &'static str
        ensures { result.now ≡ self.now.name }
    {
        self.name
    }

    /// The fewest operands.
    pub fn fewest(&self) -> usize
        ensures fewest { result ≡ self.now.fewest }
        ensures one { 1 ≤ self.now.fewest }
    {
        self.fewest
    }

    /// The most operands.
    pub fn most(&self) -> usize
        ensures { result ≡ self.now.most }
    {
        self.most
    }

    /// The options.
    pub fn options(&self) -> &'static [Choice]
        ensures { result.now ≡ self.now.options }
    {
        self.options
    }

    /// The option of the tool that has this name.
    pub fn option_named(&self, word: &str) -> Option<Choice>
        ensures { result ≡ option_named self.now word.now }
    {
        choice_named(self.options, word)
    }
}

// The first of some options that has this name.
fn choice_named(choices: &[Choice], word: &str) -> Option<Choice>
    ensures { result ≡ named option_name choices.now word.now }
{
    for choice in choices {
        if word == choice.name() {
            return Some(*choice);
        }
    }
    None
}
