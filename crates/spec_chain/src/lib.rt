//! The words in which the crates above speak of what an object owns: its IAM chain, the extents that it
//! marks, its single-page slots, the uses of a page, and the pages that are allocated to it.
#![tactic(auto)]

mod end;

ghost use Rattle.spec_chain.specs.ChainLaws.{ChainHasOneLength, ChainIsShort};

pub use end::ChainEnd;

/// A chain ends at one place, and has fewer pages than the file.
pub fn chain_law()
    ensures one { ChainHasOneLength }
    ensures short { ChainIsShort }
{}
