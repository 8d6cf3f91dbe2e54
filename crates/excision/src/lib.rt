//! Excision, and growth of the subset of a pair by cubes.
#![tactic(auto)]

mod deciding;
mod excising;
mod face_numbers;
mod growing;
mod laws;
mod left;
mod movable;
mod owners;
mod part;
mod waiting;

pub use deciding::is_acyclic;
pub use excising::excise;
pub use face_numbers::FaceNumbers;
pub use growing::{Grown, grow};
pub use laws::{
    excision_keeps_cells, faces_leave_restrictions, moves_leave_restrictions,
    reductions_show_acyclicity, touching_cells_share_vertices,
};
pub use left::left_number;
pub use owners::Owners;
pub use part::reduce_part;
pub use waiting::Waiting;
