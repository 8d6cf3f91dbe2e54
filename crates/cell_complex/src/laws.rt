//! Laws over the definitions alone, each the contract of a function that does nothing.
ghost use Rattle.cell_complex.specs.Laws.{CellsOfSetsAreClosed, DifferencesAreComplexes, RelativeComplexesAreComplexes, NumberedCellsAreComplex, BasesAreByNumberOrCell, AcyclicityIsOfCells, AcyclicListsAreSets, CellsAreAcyclic, MovableCellsAreNull, GrowthsGoOn};

/// The cells of a set are closed under faces; those of a list that is closed are its members.
#[tactic(auto, using(crate::proofs::Deciding::cells_of_sets_are_closed))]
pub fn cells_of_sets_are_closed()
    ensures { CellsOfSetsAreClosed }
{}

/// The cells of one closed set that are not in another are a complex.
#[tactic(auto, using(crate::proofs::Squares::differences_are_complexes))]
pub fn differences_are_complexes()
    ensures { DifferencesAreComplexes }
{}

/// The relative complex of any two sets is a complex: boundaries of boundaries are 0, and the
/// boundary is linear and lowers degrees by one.
#[tactic(auto, using(crate::proofs::Squares::relative_complexes_are_complexes))]
pub fn relative_complexes_are_complexes()
    ensures { RelativeComplexesAreComplexes }
{}

/// The numbered relative complex is a chain complex.
pub fn numbered_cells_are_complex()
    ensures { NumberedCellsAreComplex }
{}

/// Chains, cycles, null chains and bases over the numbers of the relative cells are those over the
/// cells, and back.
#[tactic(auto, using(crate::proofs::ByCell::bases_are_by_number_or_cell))]
pub fn bases_are_by_number_or_cell()
    ensures { BasesAreByNumberOrCell }
{}

/// Whether a set is acyclic depends on its cells alone.
#[tactic(auto, using(crate::proofs::Alike::of_cells))]
pub fn acyclicity_is_of_cells()
    ensures { AcyclicityIsOfCells }
{}

/// A closed list that has each of its cells once is acyclic as a list exactly where it is as a set.
#[tactic(auto, using(crate::proofs::Alike::lists_and_sets))]
pub fn acyclic_lists_are_sets()
    ensures { AcyclicListsAreSets }
{}

/// All faces of a cell are acyclic.
#[tactic(auto, using(crate::proofs::Meeting::cells_are_acyclic))]
pub fn cells_are_acyclic()
    ensures { CellsAreAcyclic }
{}

/// A cell has no homology relative to an acyclic closed set of its faces.
#[tactic(auto, using(crate::proofs::Meeting::movable_cells))]
pub fn movable_cells_are_null()
    ensures { MovableCellsAreNull }
{}

/// A growth goes on with a member that may be moved.
#[tactic(auto, using(crate::proofs::Going::go_on))]
pub fn growths_go_on()
    ensures { GrowthsGoOn }
{}
