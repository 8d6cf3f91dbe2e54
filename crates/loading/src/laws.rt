//! Laws on what loading refuses, each as the contract of a function that does nothing.
ghost use Rattle.loading.specs.Laws.{LimitsOfSets, DimensionsOfSets};

/// The numbers of limits and dimensions that are refused, in every run.
#[tactic(auto, using(crate::proofs::Numbers::limits, crate::proofs::Numbers::dimensions))]
pub fn numbers_are_of_the_files()
    ensures limits { LimitsOfSets }
    ensures dimensions { DimensionsOfSets }
{}
