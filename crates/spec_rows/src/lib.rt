//! The words in which the crates above speak of the rows of a page: the grammar of a row, the slot
//! array, and the page test with its first fault (all are this project's own).
#![tactic(auto)]

mod fault;
mod sizes;

pub use fault::SlotFault;
pub use sizes::{DATA_HEAD, DATA_STATUS, INDEX_LENGTH, INDEX_STATUS, SLOT_LIMIT};
