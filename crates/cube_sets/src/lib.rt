//! Sets of cells of one embedding dimension, and their algebra: the union, the intersection, the
//! cells of a set, its neighbourhood.
#![tactic(auto)]

mod change;
mod cube_set;
mod fault;
mod inner;
mod laws;
mod sorted;
mod spread;

pub use cube_set::{CubeSet, are_members};
pub use fault::{CUBES, SetFault};
pub use laws::{cells_are_faces, limit_is_of_the_formats, neighbours_meet};
pub use sorted::sort_distinct;
