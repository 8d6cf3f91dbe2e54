//! Tests of maps of full cubes, through public calls alone: their values at cells, and what
//! contracts or has a hole.
#![tactic(auto)]

#[cfg(test)]
mod contraction_tests;
#[cfg(test)]
mod map_tests;
#[cfg(test)]
mod texts;
