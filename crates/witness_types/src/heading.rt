//! The first three lines of a witness file.

/// What a witness claims something of.
#[derive(Debug, Clone, Copy, PartialEq, Eq)]
pub enum ClaimKind {
    /// A pair of sets.
    Pair,
    /// A map between two pairs.
    Map,
}

/// The version, the modulus and the kind of the claim.
#[derive(Debug, Clone, Copy, PartialEq, Eq)]
pub struct Header {
    /// The form of the file: 1 where each relative cell has a chain of its own.
    pub version: u8,
    /// A prime of the table.
    pub modulus: u16,
    /// What is claimed something of.
    pub kind: ClaimKind,
}
