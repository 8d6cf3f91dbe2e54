//! Tests of chain files, through public calls alone.
#![tactic(auto)]

#[cfg(test)]
mod chain_fault_tests;
#[cfg(test)]
mod chain_file_tests;
