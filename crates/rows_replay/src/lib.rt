//! The worked rows of runs of sessions: their replies, log and file, over which files they run, and what stands after a
//! fault or a refusal.
#![tactic(auto)]

#[cfg(test)]
mod close_tests;
#[cfg(test)]
mod file_tests;
#[cfg(test)]
mod heaps;
#[cfg(test)]
mod refused_tests;
#[cfg(test)]
mod session_tests;
#[cfg(test)]
mod table_tests;
