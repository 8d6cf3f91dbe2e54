//! Chains and chain complexes over the numbers modulo a prime, and what cycles, null chains and
//! bases of homology are.
#![tactic(auto)]

mod chain;
mod complex;
mod laws;
mod packed;
mod terms;

pub use chain::Chain;
pub use complex::{Complex, ComplexFault};
pub use laws::{
    bases_have_one_length, boundaries_are_operators, fillings_are_of_next_degree,
    null_chains_are_cycles,
};
