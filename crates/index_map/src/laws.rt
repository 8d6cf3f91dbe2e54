//! Laws over the definitions alone, each the contract of a function that does nothing.
ghost use Rattle.index_map.specs.Laws.{IndexMatricesSolveInclusions, FaultsAreFaults};
ghost use Rattle.index_map.specs.Laws.{NoCyclesAbove};
ghost use Rattle.index_map.specs.Deciding.{InclusionsAreDecided};

/// What goes before the inclusion to the induced matrix is the index matrix.
pub fn index_matrices_solve_inclusions()
    ensures { IndexMatricesSolveInclusions }
{}

/// Killed cycles and missed cocycles show that an inclusion is not invertible.
pub fn faults_are_faults()
    ensures { FaultsAreFaults }
{}

/// A basis of a pair has no cycle in a degree above the dimension of its cells.
pub fn no_cycles_above()
    ensures { NoCyclesAbove }
{}

/// The inclusion of a pair is invertible in each degree, or a chain shows that it is not.
pub fn inclusions_are_decided()
    ensures { InclusionsAreDecided }
{}
