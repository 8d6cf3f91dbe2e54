//! The laws on the lines of a witness file.
ghost use Rattle.std.specs.Prelude.{◌≡◌, Some};
ghost use Rattle.faults.specs.FaultText.{law_name};

use std::fmt;

/// A law on a line of a witness file, by the name that is printed.
#[derive(Clone, Copy, Debug, PartialEq, Eq)]
pub enum Law {
    Header,
    Text,
    Cell,
    Cycle,
    Dual,
    Cocycle,
    Contraction,
    ValueContraction,
    Carried,
    Augmentation,
    Commutes,
    Matrix,
}

impl Law {
    /// The law's name as it is printed.
    pub fn as_str(self) -> &'static str
        ensures { result.now ≡ law_name self }
    {
        match self {
            Law::Header => "Header",
            Law::Text => "Text",
            Law::Cell => "Cell",
            Law::Cycle => "Cycle",
            Law::Dual => "Dual",
            Law::Cocycle => "Cocycle",
            Law::Contraction => "Contraction",
            Law::ValueContraction => "ValueContraction",
            Law::Carried => "Carried",
            Law::Augmentation => "Augmentation",
            Law::Commutes => "Commutes",
            Law::Matrix => "Matrix",
        }
    }
}

impl fmt::Display for Law {
    ghost output = { λ l. Some (law_name l) };

    fn fmt<W: fmt::Write>(&self, f: &mut fmt::Formatter<W>) -> fmt::Result {
        f.write_str(self.as_str())
    }
}
