//! Rows as bytes (this project's own): a data row of a heap or of a leaf, and an index row of the pages
//! above the leaves.
#![tactic(auto)]

mod read;
mod row;
mod write;

pub use read::read_row;
pub use row::Row;
pub use write::write_row;
