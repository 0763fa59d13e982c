//! Scripts and schedules are read, and statements are printed (the script language is this project's
//! own).
#![tactic(auto)]

mod laws;
mod name;
mod print;
mod read;
mod statement;
mod stop;
mod text;
mod words;

pub use laws::{schedule_law, script_law};
pub use print::print_statement;
pub use read::{read_schedule, read_script};
pub use stop::ScriptStop;
pub use words::number_within;
