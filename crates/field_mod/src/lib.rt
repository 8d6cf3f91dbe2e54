//! Prime fields of a fixed table of moduli, and, for the crates above, finite sums and numbers
//! modulo p.
#![tactic(auto)]

mod field;
mod laws;
mod moduli;

pub use field::Field;
pub use laws::{moduli_are_fields, moduli_are_the_table, sums_are_linear, sums_change_order};
pub use moduli::MODULI;
