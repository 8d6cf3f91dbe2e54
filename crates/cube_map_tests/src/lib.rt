//! Tests of maps of full cubes that are made of their parts, through public calls alone.
#![tactic(auto)]

#[cfg(test)]
mod map_tests;
