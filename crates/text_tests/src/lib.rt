//! Tests of the texts of sets and of maps, through public calls alone.
#![tactic(auto)]

#[cfg(test)]
mod map_file_tests;
#[cfg(test)]
mod set_file_tests;
#[cfg(test)]
mod set_writing_tests;
