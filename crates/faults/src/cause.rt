//! Why a text is refused at a place.
ghost use Rattle.std.specs.Prelude.{◌≡◌, Some};
ghost use Rattle.faults.specs.FaultText.{cause_text};

use std::fmt;

/// Why the text of a file is refused at a place.
#[derive(Clone, Copy, Debug, PartialEq, Eq)]
pub enum Cause {
    BadByte,
    BadNumber,
    NotClosed,
    MixedDimension,
    DimensionTooLarge,
    CoordinateTooLarge,
    NotElementary,
    NotFull,
    UnknownGenerator,
    RepeatedGenerator,
}

impl Cause {
    /// The cause as it is printed.
    pub fn as_str(self) -> &'static str
        ensures { result.now ≡ cause_text self }
    {
        match self {
            Cause::BadByte => "bad byte",
            Cause::BadNumber => "bad number",
            Cause::NotClosed => "not closed",
            Cause::MixedDimension => "mixed dimension",
            Cause::DimensionTooLarge => "dimension too large",
            Cause::CoordinateTooLarge => "coordinate too large",
            Cause::NotElementary => "not an elementary cube",
            Cause::NotFull => "not a full cube",
            Cause::UnknownGenerator => "unknown generator",
            Cause::RepeatedGenerator => "repeated generator",
        }
    }
}

impl fmt::Display for Cause {
    ghost output = { λ c. Some (cause_text c) };

    fn fmt<W: fmt::Write>(&self, f: &mut fmt::Formatter<W>) -> fmt::Result {
        f.write_str(self.as_str())
    }
}
