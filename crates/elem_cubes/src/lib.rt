//! Cells of cubical sets: corners, cells, their order, faces, cofaces and closure, and the laws of
//! the cubical boundary.
#![tactic(auto)]

mod cell;
mod closure;
mod cofaces;
mod corner;
mod covers;
mod faces;
mod laws;
mod packed;
mod range;

pub use cell::Cell;
pub use closure::Closure;
pub use cofaces::Cofaces;
pub use corner::Corner;
pub use covers::Covers;
pub use faces::Faces;
pub use laws::{
    boundary_at_is_boundary, boundary_is_over_cofaces, boundary_of_boundary_is_zero,
    cells_have_parts, changes_keep_order, closures_are_faces, cofaces_are_all, covers_are_all,
    faces_are_facets, faces_are_transitive, faces_stay_in_range, facets_are_units, order_is_total,
    range_is_of_the_formats,
};
pub use range::{HIGH, LOW, MAX_EMBEDDING};
