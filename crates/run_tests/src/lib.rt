//! Tests of whole runs, over files and sinks in memory.
#![tactic(auto)]

#[cfg(test)]
mod case_tests;
#[cfg(test)]
mod chain_tests;
#[cfg(test)]
mod gen_tests;
#[cfg(test)]
mod homology_tests;
#[cfg(test)]
mod limit_tests;
#[cfg(test)]
mod map_tests;
#[cfg(test)]
mod memory_tests;
#[cfg(test)]
mod replay_tests;
#[cfg(test)]
mod rows;
#[cfg(test)]
mod set_tests;
#[cfg(test)]
mod texts;
#[cfg(test)]
mod witness_tests;
