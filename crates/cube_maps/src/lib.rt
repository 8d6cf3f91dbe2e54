//! Maps that send full cubes to sets of full cubes.
#![tactic(auto)]

mod cube_map;
mod laws;
mod pair;
mod parts;

pub use cube_map::CubeMap;
pub use laws::limit_is_of_the_formats;
pub use pair::Pair;
pub use parts::MAP_PAIRS;
