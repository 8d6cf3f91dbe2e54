//! Laws over the definitions alone, each the contract of a function that does nothing.
ghost use Rattle.leray_conley.specs.Inverses.{InverseOrKernel, RightInversesAreLeft};
ghost use Rattle.leray_conley.specs.Ranks.{LeftFactorsKeepRanks, RanksAgree, RanksExist, RanksOfTransposesAgree, RightFactorsKeepRanks};
ghost use Rattle.leray_conley.specs.Splitting.{SplittingRanksAgree, SplittingsExist};

/// An inverse on one side is one on the other.
#[tactic(auto, using(crate::proofs::Inverses::right_inverses_are_left))]
pub fn right_inverses_are_left()
    ensures { RightInversesAreLeft }
{}

/// A square matrix has an inverse, or kills a vector that is not 0.
#[tactic(auto, using(crate::proofs::Inverses::inverse_or_kernel))]
pub fn inverse_or_kernel()
    ensures { InverseOrKernel }
{}

/// Each square matrix has a Leray splitting.
#[tactic(auto, using(crate::proofs::Existence::splittings_exist))]
pub fn splittings_exist()
    ensures { SplittingsExist }
{}

/// Similar matrices have Leray images with as many columns.
#[tactic(auto, using(crate::proofs::Similar::splitting_ranks_agree))]
pub fn splitting_ranks_agree()
    ensures { SplittingRanksAgree }
{}

/// Each matrix has a rank.
pub fn ranks_exist()
    ensures { RanksExist }
{}

/// A matrix has one rank alone.
pub fn ranks_agree()
    ensures { RanksAgree }
{}

/// Rows and columns give the same rank.
pub fn ranks_of_transposes_agree()
    ensures { RanksOfTransposesAgree }
{}

/// An invertible factor on the left leaves the rank.
pub fn left_factors_keep_ranks()
    ensures { LeftFactorsKeepRanks }
{}

/// An invertible factor on the right leaves the rank.
pub fn right_factors_keep_ranks()
    ensures { RightFactorsKeepRanks }
{}
