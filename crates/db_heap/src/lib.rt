//! COUNT, SELECT and INSERT on heaps, carried out on the view of a transaction as the words of plans say.
#![tactic(auto)]

mod count;
mod heap;
mod insert;
mod order;
mod room;
mod select;
mod write;

pub use count::heap_count;
pub use insert::{InsertStop, heap_insert};
pub use select::heap_select;
