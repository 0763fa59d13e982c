//! What the PFS byte of a page should be (Pages and Extents Architecture Guide; the exact values are
//! this project's own).
#![tactic(auto)]

mod bytes;

pub use bytes::{expected, fullness_of, is_allocated};
pub use spec_file::PfsKind;
