//! The tests of sessions in turns over one file, and the limits of the log.
#![tactic(auto)]

#[cfg(test)]
mod core_tests;
mod limits;
#[cfg(test)]
mod made;

pub use limits::{limit_vectors, want_vectors};
