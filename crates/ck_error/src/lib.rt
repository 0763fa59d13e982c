//! Errors of a check: how a list of them grows by a rule, and how it is put in order for a report.
#![tactic(auto)]

mod grow;
mod order;

pub use grow::{push_if, push_some};
pub use order::in_order;
pub use spec_check::{CheckError, CheckReport, TableLine};
