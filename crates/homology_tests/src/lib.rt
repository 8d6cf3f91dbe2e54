//! Tests of the log of reduced pairs, through public calls alone.
#![tactic(auto)]

#[cfg(test)]
mod log_tests;
