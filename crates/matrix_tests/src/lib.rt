//! Tests of matrices, through public calls alone.
#![tactic(auto)]

#[cfg(test)]
mod matrices;
