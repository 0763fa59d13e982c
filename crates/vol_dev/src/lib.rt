//! The devices that the program reads and writes: a data file, a log, scripts and an output. Those in
//! memory tell what they hold and fail where they were told to; the real ones are the trusted edge and
//! tell nothing. Each counts its failures.
#![tactic(auto)]

mod count;
mod device;
mod file;
mod memory;
mod pieces;

pub use device::{DeviceFailed, LogFile, LogStop, Sink, Source, Volume};
pub use file::{FileLog, FileSource, FileVolume, StdoutSink};
pub use memory::{FailAt, MemLog, MemSink, MemSource, MemVolume};
