//! CREATE HEAP and DROP, carried out on the view of a transaction as the words of plans say.
#![tactic(auto)]

mod create;
mod drop;
mod entries;
mod place;

pub use create::create_heap;
pub use drop::drop_table;
pub use place::CreateStop;
