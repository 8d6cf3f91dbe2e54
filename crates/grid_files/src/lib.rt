//! Texts of sets of cells: set files, read and written. What callers need of sets is given on under
//! this name. The pieces of a text and the corners of full cubes serve the readers of other files
//! too.
#![tactic(auto)]

mod cells;
mod corner;
mod fault;
mod gathered;
mod laws;
mod opening;
mod piece;
mod reader;
mod scanner;
mod set_file;
mod whole_cube;
mod write;

pub use corner::{CornerStep, OpenCorner, in_corner};
pub use cube_sets::{CUBES, CubeSet, SetFault, are_members};
pub use fault::{Kind, TextCause, TextFault};
pub use laws::{
    keyword_is_of_the_format, refusals_are_first, texts_have_one_outcome, written_sets_are_read,
};
pub use piece::Piece;
pub use scanner::{Carry, Placed, Scanned, scan};
pub use set_file::read_set;
pub use whole_cube::full_cube;
pub use write::write_set;
