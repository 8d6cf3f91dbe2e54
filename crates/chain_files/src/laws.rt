//! Laws of chain files: each is the contract of a function that does nothing.
ghost use Rattle.chain_files.specs.Numbers.{NumbersAreTheFormats};
ghost use Rattle.chain_files.specs.Parts.{ValuesAreByParts};
ghost use Rattle.chain_files.specs.Refusals.{RefusalsAreFirst};
ghost use Rattle.chain_files.specs.Laws.{BasesAreOfTheFile, FileComplexesAreComplexes, TextsHaveOneOutcome, ValuesHaveOneOutcome};

/// A text has exactly one value, or is refused at exactly one place with one cause.
pub fn texts_have_one_outcome()
    ensures { TextsHaveOneOutcome }
{}

/// A basis of the homology of the complex of a file is one of what stands in the file, and the
/// other way round.
pub fn bases_are_of_the_file()
    ensures { BasesAreOfTheFile }
{}

/// The value of a text is a chain complex, or is refused at exactly one place.
pub fn values_have_one_outcome()
    ensures { ValuesHaveOneOutcome }
{}

/// Where a file has a complex, its value is one.
pub fn file_complexes_are_complexes()
    ensures { FileComplexesAreComplexes }
{}

/// The value of a text is what its header, degrees, boundaries and terms say.
pub fn values_are_by_parts()
    ensures { ValuesAreByParts }
{}

/// With the token at which a text is refused no text goes on to one that has a value, and before it
/// nothing was amiss.
#[tactic(auto, using(crate::proofs::Fronts::first_refusals))]
pub fn refusals_are_first()
    ensures { RefusalsAreFirst }
{}

/// The numbers and words of the program are those that the format states.
pub fn numbers_are_the_formats()
    ensures { NumbersAreTheFormats }
{}
