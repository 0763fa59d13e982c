//! A table and its pages: what every statement on a table reads first, in the words of plans.
#![tactic(auto)]

mod buffer;
mod chain;
mod drop;
mod extent;
mod find;
mod free;
mod give_back;
mod grow;
mod iam;
mod left;
mod links;
mod list;
mod look;
mod maps;
mod marked;
mod marks;
mod near;
mod object;
mod one_page;
mod owned;
mod pages;
mod part;
mod search;
mod single;
mod slot;
mod table;

pub use buffer::page_room;
pub use drop::free_chain;
pub use find::{FindStop, find_table, read_rows};
pub use give_back::free_page;
pub use object::new_chain;
pub use one_page::alloc_page;
pub use pages::pages_of;
pub use single::AllocStop;
pub use table::Table;
