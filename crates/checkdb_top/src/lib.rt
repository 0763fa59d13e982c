//! The call that does all that the program does, over any devices.
#![tactic(auto)]

mod check;
mod ended;
mod file;
mod reader;
mod run;
mod show;
mod start;
mod status;
mod top;

pub use ck_scan::{Gate, NoGate, Point};
pub use spec_script::ScriptWhy;
pub use spec_start::FileWhy;
pub use status::{Device, Status};
pub use top::{Outcome, plain_top};
