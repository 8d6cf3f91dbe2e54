//! The parse of the command line: what words ask for, by the table of forms and by `clap`.
#![tactic(auto)]

mod command;
mod found;
mod syntax;

pub use command::command_of;
