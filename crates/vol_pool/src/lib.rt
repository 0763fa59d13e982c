//! The pages of a file, all in memory: how they are read, changed and written back, and a reader of
//! them as one image.
#![tactic(auto)]

mod changed;
mod frames;
mod reader;
mod volume;

pub use changed::changed_pages;
pub use frames::Frames;
pub use reader::FramesReader;
