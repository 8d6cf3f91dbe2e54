//! Tests of packed words and their sweep, through public calls alone.
#![tactic(auto)]

#[cfg(test)]
mod word_tests;
