//! Matrices over a prime field and the Leray splitting.
#![tactic(auto)]

mod echelon;
mod inverse;
mod kernels;
mod laws;
mod leray;
mod matrix;
mod parts;
mod products;
mod reduce;
mod row;

pub use inverse::InverseFault;
pub use laws::{
    inverse_or_kernel, left_factors_keep_ranks, ranks_agree, ranks_exist,
    ranks_of_transposes_agree, right_factors_keep_ranks, right_inverses_are_left,
    splitting_ranks_agree, splittings_exist,
};
pub use leray::Leray;
pub use matrix::Matrix;
