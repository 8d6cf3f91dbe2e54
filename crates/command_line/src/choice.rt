//! The options of tools.
ghost use Rattle.std.specs.Prelude.{◌≡◌, ◌++◌, codes};
ghost use Rattle.command_line.specs.Forms.{option_name, takes_value, stands_alone, same_choice};

use faults::Name;

/// An option of a tool.
#[derive(Clone, Copy, Debug, PartialEq, Eq)]
pub enum Choice {
    /// The modulus of the coefficients.
    Modulus,
    /// That the cycles are printed.
    Cycles,
    /// That the counts of cells and moved cubes are printed.
    Stats,
    /// The file of a map.
    Map,
    /// That the matrices of a map are printed, and the cycles. It stands beside `Map` alone.
    Matrix,
    /// That the index matrices of a map are printed too. It stands beside `Map` alone.
    Index,
    /// The file that a witness of what is printed is written to.
    Witness,
    /// That a set is printed, and nothing of its homology. It stands with no other option.
    SetAlone,
}

/// An option as it stands among the words, with its value where it takes one.
#[derive(Debug, Drop)]
pub struct Setting {
    pub choice: Choice,
    pub value: Option<Name>,
}

impl Choice {
    /// The option's name.
    pub fn name(self) -> &'static str
        ensures { result.now ≡ option_name self }
    {
        match self {
            Choice::Modulus => "--mod",
            Choice::Cycles => "--cycles",
            Choice::Stats => "--stats",
            Choice::Map => "--map",
            Choice::Matrix => "--matrix",
            Choice::Index => "--index",
            Choice::Witness => "--witness",
            Choice::SetAlone => "--set",
        }
    }

    /// The option's name without its two dashes.
    pub fn long_name(self) -> &'static str
        ensures { option_name self ≡ codes "--" ++ result.now }
    {
        match self {
            Choice::Modulus => "mod",
            Choice::Cycles => "cycles",
            Choice::Stats => "stats",
            Choice::Map => "map",
            Choice::Matrix => "matrix",
            Choice::Index => "index",
            Choice::Witness => "witness",
            Choice::SetAlone => "set",
        }
    }

    /// Whether the option takes a value.
    pub fn takes_value(self) -> bool
        ensures { result ≡ takes_value self }
    {
        match self {
            Choice::Modulus => true,
            Choice::Cycles => false,
            Choice::Stats => false,
            Choice::Map => true,
            Choice::Matrix => false,
            Choice::Index => false,
            Choice::Witness => true,
            Choice::SetAlone => false,
        }
    }

    /// Whether the option stands with no other.
    pub fn stands_alone(self) -> bool
        ensures { result ≡ stands_alone self }
    {
        match self {
            Choice::SetAlone => true,
            Choice::Modulus
            | Choice::Cycles
            | Choice::Stats
            | Choice::Map
            | Choice::Matrix
            | Choice::Index
            | Choice::Witness => false,
        }
    }

    /// Whether it is that option.
    pub fn is(self, other: Choice) -> bool
        ensures { result ≡ same_choice self other }
    {
        match (self, other) {
            (Choice::Modulus, Choice::Modulus) => true,
            (Choice::Cycles, Choice::Cycles) => true,
            (Choice::Stats, Choice::Stats) => true,
            (Choice::Map, Choice::Map) => true,
            (Choice::Matrix, Choice::Matrix) => true,
            (Choice::Index, Choice::Index) => true,
            (Choice::Witness, Choice::Witness) => true,
            (Choice::SetAlone, Choice::SetAlone) => true,
            _ => false,
        }
    }
}
