//! The relative complex of a pair of cubical sets, over its cells and numbered.
#![tactic(auto)]

mod cell_list;
mod complex;
mod fault;
mod laws;
mod numbered;
mod pairs;

pub use cell_list::CellList;
pub use complex::complex_of;
pub use fault::CellsFault;
pub use laws::{
    acyclic_lists_are_sets, acyclicity_is_of_cells, bases_are_by_number_or_cell, cells_are_acyclic,
    cells_of_sets_are_closed, differences_are_complexes, growths_go_on, movable_cells_are_null,
    numbered_cells_are_complex, relative_complexes_are_complexes,
};
pub use numbered::Numbered;
pub use pairs::{CELLS, relative, relative_within};
