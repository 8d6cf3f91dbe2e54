//! Reports on pairs of cubical sets.
use crate::{Cycles, Dimensions};
use cell_complex::CellList;
use elem_cubes::Cell;

/// What is printed on the homology of a pair.
#[derive(Drop)]
pub struct PairReport {
    /// The dimensions of its groups, by degree from 0.
    pub dimensions: Dimensions,
    /// The cycles of a basis in each degree, their terms in cell order. They may be left out where
    /// they are not printed.
    pub cycles: Cycles<Cell>,
    /// How many relative cells the pair has.
    pub cells: u32,
    /// The members that were moved into the subset, in that order.
    pub grown: CellList,
    /// The cells that were left when no free pair was, in order.
    pub left: CellList,
}
