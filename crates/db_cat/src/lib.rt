//! The catalog: the objects of a file, on page 9 (this project's own).
#![tactic(auto)]

mod bytes;
mod change;
mod enter;
mod entry;
mod free;
mod passes;
mod rows;

pub use change::{CatFull, add, empty_entry, put_row, remove};
pub use enter::may_enter;
pub use free::{entry_of, free_entry, free_id};
pub use passes::catalog_passes;
pub use rows::{CatRow, CatStop, read_catalog};
