//! Tests of excision, growth and collapse, through public calls alone.
#![tactic(auto)]

#[cfg(test)]
mod growth_tests;
