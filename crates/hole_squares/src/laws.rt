//! Laws on squares with holes, each the contract of a function that does nothing.
ghost use Rattle.hole_squares.specs.Counts.{SquaresAreCounted, CellsAreCounted};

/// How many squares there are around n by n holes.
#[tactic(auto, using(crate::proofs::Counted::squares_are_counted))]
pub fn squares_are_counted()
    ensures { SquaresAreCounted }
{}

/// How many cells these squares have.
#[tactic(auto, using(crate::proofs::Closed::cells_are_counted))]
pub fn cells_are_counted()
    ensures { CellsAreCounted }
{}
