//! The words of the command line: which command they ask for, and the files that they name.
#![tactic(auto)]

mod command;
mod names;

pub use command::{Command, WordStop, read_words};
pub use names::{Names, names_of};
