//! What a statement takes and changes, found once for all statements from the pages that were put for it.
#![tactic(auto)]

mod allocated;
mod bits;
mod changes;
mod maps;
mod pages;
mod pair;
mod put;
mod runs;
mod takes;

pub use changes::net_changes;
pub use takes::net_takes;
