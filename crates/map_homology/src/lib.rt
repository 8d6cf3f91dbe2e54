//! The tool on the map that a map of pairs induces in homology.
#![tactic(auto)]

mod bases;
mod entries;
mod inclusion;
mod laws;
mod map_job;
mod parts;
mod reporting;
mod tables;

pub use bases::{PairCells, range_basis};
pub use entries::test_entries;
pub use inclusion::test_inclusion;
pub use laws::map_jobs_have_one_judgement;
pub use map_job::{MapJob, homology_of_map};
pub use parts::part_of;
pub use tables::{Induced, Printed, induce};
