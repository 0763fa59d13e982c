//! IAM pages: which single pages and which extents of an interval an object has (Pages and Extents
//! Architecture Guide; the layout is this project's own).
#![tactic(auto)]

mod view;
mod write;

pub use view::{IamView, has_interval, test_iam};
pub use write::{make_iam, set_mark, set_slot};
