//! The matrices that a map of full cubes with acyclic values induces in homology.
#![tactic(auto)]

mod entries;
mod images;
mod inducing;
mod laws;
mod products;

pub use entries::first_too_large;
pub use inducing::matrices;
pub use laws::products_are_the_matrix;
pub use products::products_of;
