//! Tests of fields, of files and sinks, and of refusals, through public calls alone.
#![tactic(auto)]

#[cfg(test)]
mod fault_tests;
#[cfg(test)]
mod field_tests;
#[cfg(test)]
mod outside_tests;
