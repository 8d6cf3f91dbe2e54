//! Laws of set files: each is the contract of a function that does nothing.
ghost use Rattle.grid_files.specs.Refusals.{RefusalsAreFirst};
ghost use Rattle.grid_files.specs.Laws.{KeywordIsOfTheFormat, TextsHaveOneOutcome, WrittenSetsAreRead};

/// The keyword of the program is the word that the grammar states; its numbers are those of
/// `elem_cubes::range_is_of_the_formats` and `cube_sets::limit_is_of_the_formats`.
pub fn keyword_is_of_the_format()
    ensures { KeywordIsOfTheFormat }
{}

/// A text has exactly one value, or is refused at exactly one place with one cause.
pub fn texts_have_one_outcome()
    ensures { TextsHaveOneOutcome }
{}

/// The written form of a set that is not too large has the set as its value.
#[tactic(auto, using(crate::proofs::Rereading::written_sets_are_read))]
pub fn written_sets_are_read()
    ensures { WrittenSetsAreRead }
{}

/// Where a text is refused, the pieces before the item there have a value, those that stand open
/// begin an item, and with the piece or the item that is refused nothing goes on to a value.
#[tactic(auto, using(crate::proofs::Refusals::refusals_are_first))]
pub fn refusals_are_first()
    ensures { RefusalsAreFirst }
{}
