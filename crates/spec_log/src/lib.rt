//! The words in which the crates above speak of the log: its items as plain data, and, in `specs/`,
//! what bytes an item has, which logs keep the rules, who holds what, and the images of a file under
//! a log. The log, its items and its rules are this project's own.
#![tactic(auto)]

mod bits;
mod item;
mod limits;
mod values;

pub use bits::byte_with_bit;
pub use item::{Cell, Record, tran_of_item};
pub use limits::{
    DAMAGED, FAULTED, LONGEST_LOG, MOST_BYTES, MOST_CHANGES, MOST_ITEMS, MOST_SIZE, REPORTED, SHORT,
};
pub use values::Values;
