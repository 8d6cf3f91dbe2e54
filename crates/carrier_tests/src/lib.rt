//! Tests of a map with acyclic values, through public calls alone: the images of cells, and the
//! matrices that the map induces in homology.
#![tactic(auto)]

#[cfg(test)]
mod doubling;
#[cfg(test)]
mod matrix_tests;
#[cfg(test)]
mod selector_tests;
