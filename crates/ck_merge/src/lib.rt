//! Facts of pages, gathered in any order and in pieces, and the errors that they show together.
#![tactic(auto)]

mod bucket;
mod children;
mod elsewhere;
mod found;
mod key;
mod limits;
mod matching;
mod neighbours;
mod parent_places;
mod parents;
mod parts;
mod places;
mod prevs;
mod roots;
mod runs;
mod share;
mod tables;
mod together;

pub use parts::Parts;
use spec_file::ObjId;
