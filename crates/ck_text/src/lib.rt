//! The bytes of reports, replies and pages (all texts are this project's own). No call here takes
//! memory.
#![tactic(auto)]

mod line;
mod page;
mod payload;
mod reply;
mod report;

pub use page::write_page;
pub use reply::write_reply;
pub use report::write_report;
