//! Laws of what a statement reads of an object: the chain that the check walks, and the pages that the
//! check finds allocated.
#![tactic(auto)]

ghost use Rattle.law_chains.specs.Laws.{ChainIsRead, PagesAreAllocated, PagesRise};

/// A statement that reads an object's chain goes on with the object's whole chain, and refuses exactly
/// where that can't be read.
pub fn chain_law()
    ensures { ChainIsRead }
{}

/// The pages that a statement reads behind a whole chain are those allocated to the object, rising.
pub fn page_laws()
    ensures allocated { PagesAreAllocated }
    ensures rising { PagesRise }
{}
