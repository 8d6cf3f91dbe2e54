//! Free pairs of packed words, removed in one sweep, and the order in which they were free.
#![tactic(auto)]

mod laws;
mod pairs;
mod slots;
mod sweeping;

pub use laws::{
    order_is_by_rank, reached_words_collapse, removals_are_swaps, removals_reach,
    taken_pairs_are_told,
};
pub use sweeping::{order, sweep};
