//! Reads the IAM chain of an object, page by page: its errors, the uses of pages, and the extents that
//! the object marks.
#![tactic(auto)]

mod chain;
mod ends;
mod found;
mod marks;
mod pages;
mod slots;
mod walk;

pub use chain::read_chain;
pub use found::Found;
pub use walk::{Link, Owner, Walk};
