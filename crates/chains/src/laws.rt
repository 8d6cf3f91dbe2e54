//! Laws over the definitions alone, each the contract of a function that does nothing.
ghost use Rattle.chains.specs.Laws.{BasesHaveOneLength, BoundariesAreOperators, FillingsAreOfNextDegree, NullChainsAreCycles, NumberedBasesHaveOneLength};

/// The boundary of a numbered complex is linear, and is made of generators of one degree more.
pub fn boundaries_are_operators()
    ensures { BoundariesAreOperators }
{}

/// Two bases of the homology of one complex in one degree have the same length, which is the
/// dimension.
pub fn bases_have_one_length()
    ensures any { BasesHaveOneLength }
    ensures numbered { NumberedBasesHaveOneLength }
{}

/// A filling of a chain of degree k may be taken of degree k + 1, and within the complex.
pub fn fillings_are_of_next_degree()
    ensures { FillingsAreOfNextDegree }
{}

/// A null chain of a numbered complex is a cycle, since the boundary of a boundary is 0.
pub fn null_chains_are_cycles()
    ensures { NullChainsAreCycles }
{}
