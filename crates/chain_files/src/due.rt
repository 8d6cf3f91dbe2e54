//! What a chain file must have next.

/// What the next token of a chain file has to be.
#[derive(Clone, Copy, Debug, PartialEq, Eq)]
pub(crate) enum Due {
    /// The word `chain`.
    Chain,
    /// The word `complex`.
    Complex,
    /// The word `max`.
    Max,
    /// The word `dimension` behind `max`.
    Dimension,
    /// The greatest degree.
    Top,
    /// A boundary of the degree that stands open, the next degree, or the end.
    Between,
    /// The number of a degree.
    Degree { degree: u8 },
    /// The `:` behind it.
    Colon { degree: u8 },
    /// How many generators the degree has.
    Count { degree: u8 },
    /// The generator of a boundary.
    Generator,
    /// The `=` behind it.
    Equals,
    /// The number 0, or the coefficient of the first term.
    First,
    /// Behind the number 0 at this place: a `*`, or as between two boundaries.
    Zero { at: u64 },
    /// The `*` behind a coefficient at this place.
    Times { at: u64, number: u16 },
    /// The generator of a term.
    Target { number: u16 },
    /// Behind a term: a `+`, or as between two boundaries.
    Further,
    /// The coefficient of a further term.
    Coefficient,
}
