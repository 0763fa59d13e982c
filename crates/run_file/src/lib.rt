//! The files of a run: its scripts and their schedule, read to their ends, and its data file, which passes its
//! tests and has no clustered table.
#![tactic(auto)]

mod clustered;
mod first_page;
mod log;
mod opening;
mod source;
mod sources;
mod stop;
mod text;
mod why;

pub use first_page::{passes_size, tested_geometry};
pub use log::{LogWhy, open_log};
pub use opening::open_file;
pub use sources::{Texts, read_sources};
pub use stop::SourcesStop;
pub use why::FileStop;
