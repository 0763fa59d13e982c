//! Laws of the steps of allocation: each is on its object alone, and leaves clean maps and chains clean.
#![tactic(auto)]

ghost use Rattle.law_steps.specs.Laws.{FreeIsTakeable, SlotStaysClean, SinglePageStaysClean, MarkedPageStaysClean, MarkStaysClean, GrowthStaysClean, FreedSingleStaysClean, FreedLastStaysClean, SgamStaysExact};
ghost use Rattle.law_steps.specs.LeftParts.{SlotLeavesParts, MarkLeavesParts, GrowthLeavesParts, SinglePageLeavesParts, MarkedPageLeavesParts, FreedSingleLeavesParts, FreedLastLeavesParts};
ghost use Rattle.law_steps.specs.AllocatedPages.{SlotGetsPage, MarkedGetsPage, ExtentGetsPage, GrowthKeepsPages, SingleGivesPage, MarkedGivesPage, LastGivesPage};

/// The first page of a free extent can be taken as a single page. Where a single page is put into a slot, an extent is
/// marked or a chain grows, clean maps stay clean.
pub fn taking_laws()
    ensures free { FreeIsTakeable }
    ensures slot { SlotStaysClean }
    ensures mark { MarkStaysClean }
    ensures growth { GrowthStaysClean }
{}

/// So do they where a page in a slot is filled, or a page of a marked extent is taken, freed or filled.
pub fn page_laws()
    ensures single { SinglePageStaysClean }
    ensures marked { MarkedPageStaysClean }
{}

/// And so where a single page, or the last page of a marked extent, is freed.
pub fn freeing_laws()
    ensures single { FreedSingleStaysClean }
    ensures last { FreedLastStaysClean }
{}

/// Each of these steps leaves SGAM exact, for which no rule of the check asks; a single page that is taken does where its
/// extent is mixed then exactly where a page is left to take.
pub fn sgam_law()
    ensures { SgamStaysExact }
{}

/// A page that is put into a slot, or taken of a marked extent, is allocated to the object besides those that were; one that
/// is freed isn't any more; and where a chain grows the same are. Those that stay are as they were.
pub fn allocated_laws()
    ensures slot { SlotGetsPage }
    ensures marked { MarkedGetsPage }
    ensures extent { ExtentGetsPage }
    ensures growth { GrowthKeepsPages }
    ensures single_freed { SingleGivesPage }
    ensures marked_freed { MarkedGivesPage }
    ensures last_freed { LastGivesPage }
{}

/// Of the parts of a clean file, a step of allocation changes what that of its table reads, and where a bit, a use or a mark
/// of an extent changes, what that of this extent reads; and of none else, nor of the catalog.
pub fn part_laws()
    ensures slot { SlotLeavesParts }
    ensures mark { MarkLeavesParts }
    ensures growth { GrowthLeavesParts }
    ensures single { SinglePageLeavesParts }
    ensures marked { MarkedPageLeavesParts }
    ensures single_freed { FreedSingleLeavesParts }
    ensures last_freed { FreedLastLeavesParts }
{}
