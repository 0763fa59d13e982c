//! The bits of GAM and SGAM pages (Pages and Extents Architecture Guide).
#![tactic(auto)]

mod bits;

pub use bits::{bit, first_set_from, set_bit, with_bit};
