//! The counts that have a limit.
ghost use Rattle.std.specs.Prelude.{◌≡◌, Some};
ghost use Rattle.faults.specs.FaultText.{limit_name};

use std::fmt;

/// A count that has a limit.
#[derive(Clone, Copy, Debug, PartialEq, Eq)]
pub enum LimitName {
    /// The bytes of one input file.
    FileBytes,
    /// The distinct members of one set file, or of the result of a set tool.
    Cubes,
    /// The distinct pairs of a cube and a value of one map file.
    MapPairs,
    /// The cells of a pair.
    Cells,
    /// The entries of the matrix of a map in one degree.
    MatrixEntries,
    /// The generators of one chain file.
    Generators,
    /// The terms of one chain file.
    Terms,
    /// The cells of a set whose chains a witness file names.
    WitnessCells,
    /// The sum of the squares of the numbers of cells of the values of a map.
    CarrierSize,
    /// The ends of the cubes of a neighbourhood.
    Coordinates,
}

impl LimitName {
    /// The count's name as it is printed.
    pub fn as_str(self) -> &'static str
        ensures { result.now ≡ limit_name self }
    {
        match self {
            LimitName::FileBytes => "file-bytes",
            LimitName::Cubes => "cubes",
            LimitName::MapPairs => "map-pairs",
            LimitName::Cells => "cells",
            LimitName::MatrixEntries => "matrix-entries",
            LimitName::Generators => "generators",
            LimitName::Terms => "terms",
            LimitName::WitnessCells => "witness-cells",
            LimitName::CarrierSize => "carrier-size",
            LimitName::Coordinates => "coordinates",
        }
    }
}

impl fmt::Display for LimitName {
    ghost output = { λ l. Some (limit_name l) };

    fn fmt<W: fmt::Write>(&self, f: &mut fmt::Formatter<W>) -> fmt::Result {
        f.write_str(self.as_str())
    }
}
