//! Laws over the definitions alone, each the contract of a function that does nothing.
ghost use Rattle.algebraic_reduction.specs.Laws.{StepsAreReductions, LeftGeneratorsAreBasis, LeftGeneratorsAreDimension};
ghost use Rattle.algebraic_reduction.specs.Restrictions.{FreeStepsLeaveRestrictions, StepsWithinLeaveRestrictions, AcyclicPartsAreTaken};

/// A list of steps on a complex reduces it.
#[tactic(auto, using(crate::proofs::Reductions::steps_are_reductions))]
pub fn steps_are_reductions()
    ensures { StepsAreReductions }
{}

/// Where no boundary is left, the inclusions of the generators that are left are a basis, degree by
/// degree.
#[tactic(auto, using(crate::proofs::LeftBasis::left_generators))]
pub fn left_generators_are_basis()
    ensures { LeftGeneratorsAreBasis }
{}

/// The number of the generators that are left is the dimension of homology, degree by degree.
#[tactic(auto, using(crate::proofs::Dimension::left_dimension))]
pub fn left_generators_are_dimension()
    ensures { LeftGeneratorsAreDimension }
{}

/// One more step by a free pair leaves restrictions.
#[tactic(auto, using(crate::proofs::Restrictions::free_steps))]
pub fn free_steps_leave_restrictions()
    ensures { FreeStepsLeaveRestrictions }
{}

/// Steps within a closed part, all of which they take, leave restrictions.
#[tactic(auto, using(crate::proofs::Restrictions::steps_within))]
pub fn steps_within_leave_restrictions()
    ensures { StepsWithinLeaveRestrictions }
{}

/// An acyclic part that is reduced in itself is gone.
#[tactic(auto, using(crate::proofs::AcyclicParts::acyclic_parts))]
pub fn acyclic_parts_are_taken()
    ensures { AcyclicPartsAreTaken }
{}
