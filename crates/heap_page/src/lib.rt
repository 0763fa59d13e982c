//! One page of a heap as a plan sees it: its test, the room on it, the payloads of a key, a row more behind its
//! last, and the changes from one state of it to another.
#![tactic(auto)]

mod change;
mod page;
mod payloads;
mod span;

pub use change::{
    add_page_changes, add_part_change, byte_change, bytes_change, page_changes, with_page_changes,
};
pub use page::{has_room, heap_row, is_heap_page, put_row};
pub use payloads::add_payloads;
