//! The slot array of a page: the page test with its first fault, the rows of a page that passes it, and
//! the calls that change its rows (all are this project's own).
#![tactic(auto)]

mod change;
mod header;
mod order;
mod pack;
mod passes;
mod puts;
mod rows;
mod slot;
mod view;

pub use change::{NoRoom, insert_at, remove_at, replace_at};
pub use pack::compact;
pub use passes::test_page;
pub use spec_rows::SlotFault;
pub use view::SlotView;
