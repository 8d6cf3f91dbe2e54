//! The pieces of a set file, or of a map file.

/// The word that begins a dimension line.
pub(crate) const DIMENSION: [u8; 9] = *b"dimension";

/// A token outside words, or what a word makes of its line.
#[derive(Clone, Copy, Debug, PartialEq, Eq)]
pub enum Piece {
    /// A number of 64 bits.
    Number(i64),
    /// A number outside 64 bits.
    Wide,
    /// One of the marks.
    Mark(u8),
    /// An arrow, `->`.
    Arrow,
    /// A byte of no use.
    Strange,
    /// A word with the rest of its line, which is skipped.
    SkippedLine,
    /// The word `dimension`.
    DimensionWord,
    /// The number that stands behind it on its line.
    DimensionNumber(i64),
    /// No such number stands there.
    NoNumber,
    /// What else stands on that line.
    Stray,
}
