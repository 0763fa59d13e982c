//! The pages of a new file (Pages and Extents Architecture Guide; the exact bytes are this project's own). No memory is
//! taken.
#![tactic(auto)]

mod first;
mod maps;
mod page;
mod start;

pub use page::make_page;
