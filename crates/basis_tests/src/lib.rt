//! Tests of bases, their cocycles and their contraction, through public calls alone.
#![tactic(auto)]

#[cfg(test)]
mod basis_tests;
