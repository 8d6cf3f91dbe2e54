//! Tests of the lines of witness files, through public calls alone.
#![tactic(auto)]

#[cfg(test)]
mod line_tests;
#[cfg(test)]
mod run_tests;
