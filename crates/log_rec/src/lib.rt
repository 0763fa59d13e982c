//! Items of the log as bytes (the format is this project's own).
#![tactic(auto)]

mod head;
mod item;

pub use item::encode;
pub use spec_log::{Cell, Record};
