//! Laws of extents: a check finds nothing wrong with extents and pages exactly where each extent shows what is
//! good; a good extent is of a kind; and what statements do to extents keeps them good.
#![tactic(auto)]

ghost use Rattle.law_extents.specs.Laws.{ExtentIsLocal, ExtentsAreAll, FreeIsKind, SharedIsKind, OwnedIsKind, GoodHasKind, SameKeepsGood, SingleKeepsGood, FillingKeepsGood, ByteKeepsGood, ExtentKeepsGood, FreeingKeepsGood, UnmarkingKeepsGood};

/// No error of extents and pages stands at an extent exactly where what it shows is good, and none in a file of
/// whole extents exactly where all are good.
pub fn extent_laws()
    ensures local { ExtentIsLocal }
    ensures all { ExtentsAreAll }
{}

/// The extents that show what a free, a shared or an owned extent shows are the good ones that GAM, single pages or
/// an object claim; a good extent that is none of these is the system's.
pub fn kind_laws()
    ensures free { FreeIsKind }
    ensures shared { SharedIsKind }
    ensures owned { OwnedIsKind }
    ensures some { GoodHasKind }
{}

/// An extent stays good where it shows the same; where a single page is taken or filled, a page of a marked extent
/// changes its byte, or a free extent is taken; and where single pages or a marked extent are freed.
pub fn change_laws()
    ensures same { SameKeepsGood }
    ensures single { SingleKeepsGood }
    ensures filling { FillingKeepsGood }
    ensures byte { ByteKeepsGood }
    ensures extent { ExtentKeepsGood }
    ensures freeing { FreeingKeepsGood }
    ensures unmarking { UnmarkingKeepsGood }
{}
