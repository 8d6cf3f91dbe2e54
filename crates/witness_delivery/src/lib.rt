//! A run's output: a file first, where one is to be written, and then the report.
#![tactic(auto)]

mod delivering;
mod whole_file;

pub use delivering::{Delivered, deliver};
pub use whole_file::put_file;
