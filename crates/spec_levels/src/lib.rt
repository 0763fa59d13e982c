//! The words in which the crates above speak of a clustered table's tree as levels of pages: all of them
//! stand in `specs/`.
#![tactic(auto)]
