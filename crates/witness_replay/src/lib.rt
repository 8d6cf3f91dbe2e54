//! Witness files: their header, how they are written, and whether one meets the laws and what it
//! claims. What the calls share stands in the crates below, and is named here once more.
#![tactic(auto)]

mod replaying;

pub use replaying::replay;
pub use witness_texts::header;
pub use witness_types::{Claim, ClaimKind, Header, Input, Law, MapPart, PairPart, WitnessFault};
pub use witness_writing::write_witness;
