//! Tests of cells and sets of cells, through public calls alone.
#![tactic(auto)]

#[cfg(test)]
mod cell_tests;
#[cfg(test)]
mod set_limit_tests;
#[cfg(test)]
mod set_tests;
