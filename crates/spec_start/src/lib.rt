//! What a run of sessions starts with: the texts of its sources, and a file without a clustered table; and why it
//! doesn't start (the order of the tests is this project's own).
#![tactic(auto)]

mod why;

pub use why::FileWhy;
