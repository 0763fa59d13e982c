//! Laws of statements as they are planned, and of a page that an object gets or gives back: they are the steps that leave a
//! clean file, or clean maps, clean, and change its parts only where these are held.
#![tactic(auto)]

ghost use Rattle.law_kept.specs.Covered.{CoveredIsAtMost};
ghost use Rattle.law_kept.specs.Creates.{CreateCreates, CreateLeavesMapsClean, CreateLeavesFileClean, CreateLeavesSgamExact};
ghost use Rattle.law_kept.specs.Drops.{PagesAreGivenBack, DropDrops, DropLeavesMapsClean, DropLeavesFileClean, DropLeavesSgamExact};
ghost use Rattle.law_kept.specs.Giving.{PageIsGivenBack, GivingLeavesMapsClean, GivingLeavesOthers, GivingChangesTaken, GivingLeavesSgamExact};
ghost use Rattle.law_kept.specs.Growing.{PageIsGot, GrowingLeavesMapsClean, GrowingLeavesOthers, GrowingChangesTaken, GrowingLeavesSgamExact};
ghost use Rattle.law_kept.specs.Singles.{SingleIsTaken, SingleSetsSgam, ChainIsTaken};
ghost use Rattle.law_kept.specs.Statements.{StatementsLeaveMapsClean, StatementsChangeTaken, StatementsLeaveSgamExact};

/// A single page that is found on a clean view is a page that nobody has, and is taken; and so is the page of a new
/// chain, which is the one IAM page of its object. SGAM is right then, where others hold extents with bytes.
pub fn taking_laws()
    ensures single { SingleIsTaken }
    ensures sgam { SingleSetsSgam }
    ensures chain { ChainIsTaken }
{}

/// CREATE HEAP creates a heap, and so leaves clean maps clean and a clean file clean; and SGAM exact, where others
/// hold extents with bytes.
pub fn create_laws()
    ensures creates { CreateCreates }
    ensures maps { CreateLeavesMapsClean }
    ensures file { CreateLeavesFileClean }
    ensures sgam { CreateLeavesSgamExact }
{}

/// Where the pages of an object are dropped on a clean view, all that it has is given back.
pub fn freeing_law()
    ensures { PagesAreGivenBack }
{}

/// DROP drops the object of its name, and so leaves clean maps clean, a clean file clean, and SGAM exact.
pub fn drop_laws()
    ensures drops { DropDrops }
    ensures maps { DropLeavesMapsClean }
    ensures file { DropLeavesFileClean }
    ensures sgam { DropLeavesSgamExact }
{}

/// An object of a clean view that gets one more page has that page then, besides those that it had, which are as they were.
/// Maps stay clean, and every other object keeps its chain and its pages; what a part of a clean file reads changes only
/// where its resource is taken, if the table is; and SGAM stays exact, where others hold extents with bytes.
pub fn growing_laws()
    ensures got { PageIsGot }
    ensures maps { GrowingLeavesMapsClean }
    ensures others { GrowingLeavesOthers }
    ensures parts { GrowingChangesTaken }
    ensures sgam { GrowingLeavesSgamExact }
{}

/// So it is where an object gives a page back, which it had and hasn't any more; and there SGAM stays exact whatever others
/// hold.
pub fn giving_laws()
    ensures given { PageIsGivenBack }
    ensures maps { GivingLeavesMapsClean }
    ensures others { GivingLeavesOthers }
    ensures parts { GivingChangesTaken }
    ensures sgam { GivingLeavesSgamExact }
{}

/// Every planned statement that gives a reply on a clean view leaves maps and chains clean, changes what a part of a clean
/// file reads only where it has taken the part's resource, and leaves SGAM exact, where others hold extents with bytes.
pub fn statement_laws()
    ensures maps { StatementsLeaveMapsClean }
    ensures parts { StatementsChangeTaken }
    ensures sgam { StatementsLeaveSgamExact }
{}

/// Where two images of a file differ only under some resources, as those before and behind a log's changes, all else that a
/// check reads of maps and pages is the same.
pub fn cover_law()
    ensures { CoveredIsAtMost }
{}
