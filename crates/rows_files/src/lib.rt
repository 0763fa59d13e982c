//! Data files made by hand, and runs of the program over devices in memory, for the worked rows.
#![tactic(auto)]

pub mod files;
pub mod objects;
pub mod pieces;
pub mod replays;
pub mod rows;
pub mod still;
pub mod trees;
