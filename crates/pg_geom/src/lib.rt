//! Where the map pages of a file stand, and what each page is for, by arithmetic on its number (Pages
//! and Extents Architecture Guide; the exact spans are this project's own).
#![tactic(auto)]

mod laws;
mod places;
mod roles;
mod spans;

pub use laws::places_apart;
pub use places::{gam_of, interval_of, pfs_of, sgam_of};
pub use roles::{is_inside, is_ordinary, is_system, role_of};
pub use spans::{interval_pages, interval_size, page_limit, pfs_span};
