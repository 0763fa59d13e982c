//! The words in which the crates above speak of a statement: a planned change as plain data, and, in
//! `specs/`, in what order a statement reads what it sees, which refusal comes first, what it answers,
//! what it changes and what it takes. They are this project's own.
#![tactic(auto)]

mod plan;

pub use plan::Planned;
