//! The words in which the crates above speak of trees: what a check knows of pages, and, in `specs/`, the
//! rules of pages and trees, which are stated over all that is known (after DBCC CHECKDB; each rule's
//! condition and fields are this project's own).
#![tactic(auto)]

mod known;

pub use known::{IndexRow, Link, PageHead, Root, RowPlace};
