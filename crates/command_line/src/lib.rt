//! What the words of the command line say: tools and their forms, options, arguments, and what they
//! ask for.
#![tactic(auto)]

mod arguments;
mod choice;
mod command;
mod form;
mod laws;
mod modulus;
mod operands;
mod options;

pub use arguments::Arguments;
pub use choice::{Choice, Setting};
pub use command::Command;
pub use form::{Form, ToolName};
pub use laws::{
    options_have_no_order, values_are_said_in_two_ways, words_behind_dashes_are_operands,
};
pub use options::Options;
