//! Why a run did not print its report: faults with their lines and their statuses, and names, cells
//! and chains as they are printed.
#![tactic(auto)]

mod cause;
mod chain;
mod fault;
mod generator;
mod index_lines;
mod law;
mod limit_name;
mod map_lines;
mod name;
mod status;
mod terms;

pub use cause::Cause;
pub use chain::put_chain;
pub use fault::{Fault, fault_text};
pub use generator::Generator;
pub use law::Law;
pub use limit_name::LimitName;
pub use name::Name;
pub use status::Status;
pub use terms::{CellChain, GeneratorChain, Terms};
