//! Maps of full cubes from one pair of sets to another: their values at cells, and the test of
//! them.
#![tactic(auto)]

mod acyclic_shapes;
mod carrier;
mod map_fault;
mod moves;
mod sets;
mod shape;
mod slots;
mod value;
mod values;

pub use carrier::{Carrier, check_values};
pub use map_fault::MapFault;
pub use sets::check_sets;
pub use value::value_at;
