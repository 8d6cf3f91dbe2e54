//! The laws of witness files, and what they show: a file that meets them proves that its cycles are
//! bases of homology, and that its matrices are those that a map induces.
#![tactic(auto)]

mod law;
mod laws;

pub use law::{Law, WitnessFault};
pub use laws::{
    lines_tell_their_parts, numerals_are_printed, products_with_sections_are_the_matrix,
    sections_are_bases, tables_have_one_outcome, tables_show_bases, tables_show_maps,
    texts_have_their_lines,
};
