//! A new file is written on a volume, page by page.
#![tactic(auto)]

mod write;

pub use write::{NewStop, write_new};
