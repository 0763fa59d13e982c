//! The tests of the turn and of the claims: threads that extend one list in turns, and that draw numbers.
#![tactic(auto)]

#[cfg(test)]
mod claim_tests;
#[cfg(test)]
mod turn_tests;
