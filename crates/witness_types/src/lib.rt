//! What calls on witness files ask and answer: the input, the header, the parts and the claim.
#![tactic(auto)]

mod heading;
mod input;
mod part;

pub use heading::{ClaimKind, Header};
pub use input::Input;
pub use part::{Claim, MapPart, PairPart};
pub use witness_laws::{Law, WitnessFault};
