//! Laws of the log and its images.
#![tactic(auto)]

ghost use Rattle.law_undo.specs.Laws.{HolderIsOther, HoldersAreOne, DamageIsOld, UndoGivesCommitted, FileShowsBytes, FileShowsBits, UnguardedStay, UndosBringBack, NobodySeesCommitted, CommitShowsView, CommitChangesOwn, SilentItemsChangeNothing};

/// A resource has at most one holder, and `holder_of` names it unless it is the asker's own.
pub fn holder_laws()
    ensures other { HolderIsOther }
    ensures one { HoldersAreOne }
{}

/// Taking back what is unfinished, from the file as it stands, gives the committed image.
pub fn undo_law()
    ensures { UndoGivesCommitted }
{}

/// Where nobody else holds the guard, the file shows what a transaction sees. A transaction whose
/// changes are all undone, and transaction 0, see the committed image.
pub fn view_laws()
    ensures bytes { FileShowsBytes }
    ensures bits { FileShowsBits }
    ensures unguarded { UnguardedStay }
    ensures undone { UndosBringBack }
    ensures nobody { NobodySeesCommitted }
{}

/// A Commit makes committed what its transaction saw, and no other byte than those that it put. Items
/// that neither change, undo nor commit change no image.
pub fn commit_laws()
    ensures view { CommitShowsView }
    ensures own { CommitChangesOwn }
    ensures silent { SilentItemsChangeNothing }
{}

/// Taking back what is unfinished meets a damaged cell exactly where the opened log's own items do, and
/// then the same page. No item of this run does.
pub fn damage_law()
    ensures { DamageIsOld }
{}
