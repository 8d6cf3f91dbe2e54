//! Laws over the definitions alone, each the contract of a function that does nothing.
ghost use Rattle.witness_laws.specs.Sections.{ProductsWithSectionsAreTheMatrix, SectionsAreBases};
ghost use Rattle.witness_laws.specs.Laws.{TablesShowBases, TablesShowMaps};
ghost use Rattle.witness_laws.specs.Laws.{TextsHaveTheirLines, NumeralsArePrinted};
ghost use Rattle.witness_laws.specs.Laws.{LinesTellTheirParts, TablesHaveOneOutcome};

/// The cycles of a section are a basis in each degree.
pub fn sections_are_bases()
    ensures { SectionsAreBases }
{}

/// The products of images with the cocycles of a section are the matrix of every carried map.
pub fn products_with_sections_are_the_matrix()
    ensures { ProductsWithSectionsAreTheMatrix }
{}

/// The cycles of a value of version 1 that meets the laws are bases.
pub fn tables_show_bases()
    ensures { TablesShowBases }
{}

/// For a map the values are acyclic, a carried map exists, and the matrices are those of all
/// carried maps.
pub fn tables_show_maps()
    ensures { TablesShowMaps }
{}

/// The text of each line is one line; a text of such lines has exactly these; and the lines of a
/// text are the text.
pub fn texts_have_their_lines()
    ensures { TextsHaveTheirLines }
{}

/// A numeral is what is printed of a number.
pub fn numerals_are_printed()
    ensures { NumeralsArePrinted }
{}

/// A line tells its numbers and its chain.
pub fn lines_tell_their_parts()
    ensures { LinesTellTheirParts }
{}

/// A text has at most one value, and of the answers on it at most one is right.
pub fn tables_have_one_outcome()
    ensures { TablesHaveOneOutcome }
{}
