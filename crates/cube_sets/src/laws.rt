//! Laws of sets: each is the contract of a function that does nothing.
ghost use Rattle.cube_sets.specs.Sets.{LimitIsOfTheFormats};
ghost use Rattle.cube_sets.specs.Closures.{CellsAreFaces};
ghost use Rattle.cube_sets.specs.Neighbours.{NeighboursMeet};

/// The limit of the program is the number that the formats state.
pub fn limit_is_of_the_formats()
    ensures { LimitIsOfTheFormats }
{}

/// The cells of a set stand in order, are exactly the faces of its members, have as many factors as
/// these, and lie in the range of the files with them.
#[tactic(auto, using(crate::proofs::Covering::cells_are_faces))]
pub fn cells_are_faces()
    ensures { CellsAreFaces }
{}

/// The neighbours of a set stand in order, and are exactly the full cubes that share a point with a
/// member.
#[tactic(auto, using(crate::proofs::Neighbouring::neighbours_meet))]
pub fn neighbours_meet()
    ensures { NeighboursMeet }
{}
