//! Tests of relative complexes over cells, through public calls alone.
#![tactic(auto)]

#[cfg(test)]
mod cell_complex_tests;
