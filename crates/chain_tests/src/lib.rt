//! Tests of chains and chain complexes, through public calls alone.
#![tactic(auto)]

#[cfg(test)]
mod chain_tests;
