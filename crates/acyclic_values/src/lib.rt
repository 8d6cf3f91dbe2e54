//! Maps of full cubes: their values at all cells, whether these are acyclic, and the chain maps
//! that they carry.
#![tactic(auto)]

mod contraction;
mod hole;
mod laws;

pub use contraction::{Contraction, contract_value, test_value};
pub use hole::{Hole, ValueFault};
pub use laws::{
    acyclic_or_hole, carried_maps_agree, carried_maps_exist, carried_maps_extend,
    contractions_are_acyclic, holes_have_one_degree, images_are_relative_cycles,
    last_vertices_contract, left_generators_are_holes, never_both, reductions_exist,
    some_vertex_is_left, values_are_closed_and_grow, values_are_decided, values_are_one,
    values_stay_inside,
};
