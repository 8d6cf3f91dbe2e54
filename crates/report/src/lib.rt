//! What a run prints where nothing is refused, as values and as bytes.
#![tactic(auto)]

mod accepted;
mod accepted_lines;
mod cycles;
mod dimensions;
mod index_lines;
mod index_part;
mod lines;
mod map_lines;
mod map_report;
mod pair;
mod reports;
mod rows;

pub use accepted::{Accepted, AcceptedMap};
pub use cycles::Cycles;
pub use dimensions::Dimensions;
pub use index_part::{IndexPart, LerayRows};
pub use map_report::MapReport;
pub use pair::PairReport;
pub use reports::{Report, Shown, text};
pub use rows::Rows;
