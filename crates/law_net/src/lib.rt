//! The law of all plans that are made of the words: what differs is told by net changes that a log may have, and each
//! word keeps what this needs.
#![tactic(auto)]

ghost use Rattle.law_net.specs.Examples.{RunsStayInExtents, CellsGoToTheLast, SlotsBeginByTheGreater, PagesBecomeAllocated, OthersDoNot, TakesAreInOrder, ChangesAreListedOnce};
ghost use Rattle.law_net.specs.NetLaw.{NetChangesAreGood};
ghost use Rattle.law_net.specs.Touched.{ChangesAreUnder};
ghost use Rattle.law_net.specs.GoodViews.{LookLeavesView, ReachLeavesView, HeldLeavesView, GoodLeavesView, TakeKeepsGood, GamKeepsGood, SgamKeepsGood, PfsKeepsGood, PageKeepsGood, CatalogKeepsGood};
ghost use Rattle.law_net.specs.Reading.{TablePagesLeaveView, CountLeavesView, SelectLeavesView};

/// The net changes of two images of a file that differ only under what was taken make the one from the other,
/// find their bytes, have the form of a log's changes, are covered by what is held or taken, and are few; the takes
/// rise, and are new.
pub fn net_law()
    ensures { NetChangesAreGood }
{}

/// The net changes are found by looking only at what was taken.
pub fn touched_law()
    ensures { ChangesAreUnder }
{}

/// Each word that reads or asks leaves the view; each that takes or writes leaves a good view good.
pub fn word_laws()
    ensures look { LookLeavesView }
    ensures reach { ReachLeavesView }
    ensures held { HeldLeavesView }
    ensures good { GoodLeavesView }
    ensures take { TakeKeepsGood }
    ensures gam { GamKeepsGood }
    ensures sgam { SgamKeepsGood }
    ensures pfs { PfsKeepsGood }
    ensures page { PageKeepsGood }
    ensures catalog { CatalogKeepsGood }
{}

/// A table's pages are read without the view's being moved. COUNT and SELECT leave the view as it was.
pub fn reading_laws()
    ensures pages { TablePagesLeaveView }
    ensures count { CountLeavesView }
    ensures select { SelectLeavesView }
{}

/// Small files, worked by hand: how runs of PFS bytes, cells of a page and slots are cut, which page becomes
/// allocated, in which order takes stand, and that nothing is listed twice.
pub fn examples()
    ensures runs { RunsStayInExtents }
    ensures cells { CellsGoToTheLast }
    ensures slots { SlotsBeginByTheGreater }
    ensures allocated { PagesBecomeAllocated }
    ensures others { OthersDoNot }
    ensures takes { TakesAreInOrder }
    ensures once { ChangesAreListedOnce }
{}
