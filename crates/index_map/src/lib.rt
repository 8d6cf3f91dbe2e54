//! The inclusion of a pair of cubical sets in another, and the index matrices that it gives with a
//! map from the one to the other.
#![tactic(auto)]

mod combinations;
mod fault;
mod inclusion;
mod laws;
mod matrices;
mod restrictions;

pub use fault::{IndexFault, Side};
pub use inclusion::{NotIncluded, included};
pub use laws::{
    faults_are_faults, inclusions_are_decided, index_matrices_solve_inclusions, no_cycles_above,
};
pub use matrices::index;
