//! The close of a run: its items are appended to the log, then the changed pages are written, then the
//! replies.
#![tactic(auto)]

mod close;
mod output;

pub use close::{Close, CloseStop};
pub use output::write_session;
