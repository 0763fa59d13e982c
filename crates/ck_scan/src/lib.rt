//! The check of a still file, by one reader or by many workers: the errors of its maps, pages and trees, and a line
//! for each object that counts its pages and rows.
#![tactic(auto)]

mod crew;
mod findings;
mod frame;
mod gate;
mod pages;
mod report;
mod stepped;
mod together;
mod worker;

ghost use Rattle.ck_scan.specs.PartsLaw.{PartsShowTrees};

pub use gate::{Gate, NoGate, Point};
pub use stepped::{SteppedScan, scan_one};
pub use together::scan;

/// The facts of all pages that a check sees, taken in whatever order and pieces and in any number of parts, show
/// exactly the image's errors of trees.
pub fn parts_law()
    ensures { PartsShowTrees }
{}
