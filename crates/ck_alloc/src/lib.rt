//! The maps of a file, and the allocation rules: what GAM, SGAM, PFS bytes, IAM chains and uses of pages
//! say against each other.
#![tactic(auto)]

mod errors;
mod extents;
mod map_bits;
mod markers;
mod objects;
mod pages;
mod places;
mod read;
mod system_maps;
mod system_pages;
mod wrong;

pub use errors::alloc_errors;
pub use read::read_maps;
pub use spec_check::{CheckError, CheckReport, TableLine};
