//! Chain files: a chain complex by its generators and their boundaries, as a text.
#![tactic(auto)]

mod block;
mod chain_file;
mod due;
mod entry;
mod fault;
mod gathered;
mod laws;
mod making;
mod reader;
mod text;
mod words;

pub use chain_file::{ChainFile, read_complex};
pub use fault::{ChainCause, ChainFault, GENERATORS, MAX_DEGREE, TERMS};
pub use laws::{
    bases_are_of_the_file, file_complexes_are_complexes, numbers_are_the_formats,
    refusals_are_first, texts_have_one_outcome, values_are_by_parts, values_have_one_outcome,
};
