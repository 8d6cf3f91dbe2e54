//! Laws over the definitions alone, each the contract of a function that does nothing.
ghost use Rattle.word_sweeps.specs.Laws.{RemovalsAreSwaps, RemovalsReach, ReachedWordsCollapse, TakenPairsAreTold, OrderIsByRank};

/// The removal of a pair is the change of one word.
#[tactic(auto, using(crate::proofs::Removals::removals))]
pub fn removals_are_swaps()
    ensures { RemovalsAreSwaps }
{}

/// Words are reached from themselves, and stay so by one more removal.
#[tactic(auto, using(crate::proofs::Reached::reach))]
pub fn removals_reach()
    ensures { RemovalsReach }
{}

/// Words that are reached from words collapse.
#[tactic(auto, using(crate::proofs::Reached::collapse))]
pub fn reached_words_collapse()
    ensures { ReachedWordsCollapse }
{}

/// The removed pairs are those that the last words record.
#[tactic(auto, using(crate::proofs::Taken::told))]
pub fn taken_pairs_are_told()
    ensures { TakenPairsAreTold }
{}

/// Ascending corners give an order in which each taken pair is free.
#[tactic(auto, using(crate::proofs::Ranks::by_rank))]
pub fn order_is_by_rank()
    ensures { OrderIsByRank }
{}
