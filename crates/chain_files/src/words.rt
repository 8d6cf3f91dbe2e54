//! The words of a chain file.

/// The words that begin a chain file, in this order.
pub(crate) const CHAIN: [u8; 5] = *b"chain";

pub(crate) const COMPLEX: [u8; 7] = *b"complex";

pub(crate) const MAX: [u8; 3] = *b"max";

/// The last of them, which also begins each degree.
pub(crate) const DIMENSION: [u8; 9] = *b"dimension";
