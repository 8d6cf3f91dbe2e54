//! Laws of map files: each is the contract of a function that does nothing.
ghost use Rattle.map_files.specs.Laws.{TextsHaveOneOutcome};
ghost use Rattle.map_files.specs.Refusals.{RefusalsAreFirst};

/// A text has exactly one value, or is refused at exactly one place with one cause.
#[tactic(auto, using(crate::proofs::Outcomes::one_outcome))]
pub fn texts_have_one_outcome()
    ensures { TextsHaveOneOutcome }
{}

/// Where a text is refused, the pieces before the item there have a value, those that stand open
/// begin an item, and with the piece or the item that is refused nothing goes on to a value.
#[tactic(auto, using(crate::proofs::Refusals::refusals_are_first))]
pub fn refusals_are_first()
    ensures { RefusalsAreFirst }
{}
