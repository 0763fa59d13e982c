//! The laws of the words of allocation: what they find, take and give back.
#![tactic(auto)]

ghost use Rattle.law_alloc.specs.Examples.{LowestIsTaken, HeldExtentIsPassedOver, HeldByteIsPassedOver, LastPageLowersSgam, NothingIsLeft, LowestHeldIsTold, BootKeepsItsExtent, LastPageFreesItsExtent, MarkedExtentStaysInUse, MarkedExtentIsFreed, BadMapIsTold, SlotComesFirst, MarkedPageComesNext, FreeExtentIsMarked, MarkIsTakenBack, NewIamPageSays, LowestAreCreated, EntryIsFound};
ghost use Rattle.law_alloc.specs.Unheld.{SingleIsUnheld};
ghost use Rattle.law_alloc.specs.Keeps.{SingleKeepsGood, ObjectPageKeepsGood, SharedKeepsGood, MarkedKeepsGood, ObjectPageFreedKeepsGood, NewChainKeepsGood, DropKeepsGood, EntryKeepsGood};

/// Where a single page, a page for an object or a new chain's page is taken, a page of a mixed or of a marked extent is
/// given back, one of an object is, with its slots and marks, all pages of an object are, or an entry of the catalog is
/// emptied, a good view stays good: it differs from how it began only under what was taken. A page that is taken is one
/// of the file that objects may own.
pub fn keep_laws()
    ensures single { SingleKeepsGood }
    ensures object { ObjectPageKeepsGood }
    ensures shared { SharedKeepsGood }
    ensures marked { MarkedKeepsGood }
    ensures page { ObjectPageFreedKeepsGood }
    ensures chain { NewChainKeepsGood }
    ensures drop { DropKeepsGood }
    ensures entry { EntryKeepsGood }
{}

/// A single page is never of an extent that another transaction holds, nor one whose PFS byte it holds.
pub fn held_law()
    ensures { SingleIsUnheld }
{}

/// Small files, worked by hand: which single page is found, and what is passed over; that a bit of SGAM falls with the
/// last free page, and a bit of GAM rises with the last page that is given back; what is told where no page is left; in
/// which order an object looks for a page, what it writes, and what a new IAM page says; which id and entry are free.
pub fn examples()
    ensures lowest { LowestIsTaken }
    ensures extent { HeldExtentIsPassedOver }
    ensures byte { HeldByteIsPassedOver }
    ensures last { LastPageLowersSgam }
    ensures nothing { NothingIsLeft }
    ensures told { LowestHeldIsTold }
    ensures boot { BootKeepsItsExtent }
    ensures freed { LastPageFreesItsExtent }
    ensures in_use { MarkedExtentStaysInUse }
    ensures marked { MarkedExtentIsFreed }
    ensures bad { BadMapIsTold }
    ensures slot { SlotComesFirst }
    ensures page { MarkedPageComesNext }
    ensures mark { FreeExtentIsMarked }
    ensures back { MarkIsTakenBack }
    ensures iam { NewIamPageSays }
    ensures created { LowestAreCreated }
    ensures found { EntryIsFound }
{}
