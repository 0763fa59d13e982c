//! Laws of clustered tables' trees: where the way towards a key leads, and what is left when a row was put
//! or taken there.
#![tactic(auto)]

ghost use Rattle.law_ways.specs.WayLaws.{RowsLead, WaysLead, WaysAreRead, OneTree, LeavesAreWalked};
ghost use Rattle.law_ways.specs.InsertLaws.{InsertKeeps, UpdateReplaces, InsertClimbs, InsertIsWritten, InsertIsLocal, InsertKeepsOthers};
ghost use Rattle.law_ways.specs.DeleteLaws.{DeleteKeeps, DeleteTakes, DeleteSinks, DeleteIsWritten, LeftEdgeIsNext, DeleteIsLocal, DeleteKeepsOthers};
ghost use Rattle.law_ways.specs.RoomLaws.{InsertHasRoom, DeleteHasRoom};
ghost use Rattle.law_ways.specs.Examples.{RootLeafSplits, TwoLevelsSplit, RowIsReplaced, LeafIsUnlinked, FirstRowGoes, LeftEdgeMoves, RootCollapses, LastRowGoes, IsShown, IsWay, PagesAreRead, PagesAreFreed};

/// The way towards a key leads to its row, and is read from the pages that show the tree; so are all leaves.
pub fn way_laws()
    ensures rows { RowsLead }
    ensures lead { WaysLead }
    ensures read { WaysAreRead }
    ensures one { OneTree }
    ensures walk { LeavesAreWalked }
{}

/// A tree into which a row was put is a tree, with the row at its place. The pages on the way tell which
/// pages change, and how.
pub fn insert_laws()
    ensures keeps { InsertKeeps }
    ensures updates { UpdateReplaces }
    ensures climbs { InsertClimbs }
    ensures written { InsertIsWritten }
    ensures local { InsertIsLocal }
    ensures others { InsertKeepsOthers }
    ensures room { InsertHasRoom }
{}

/// A tree from which a row was taken is a tree, with the other rows. The pages on the way tell which pages
/// change, and how, and which are freed.
pub fn delete_laws()
    ensures keeps { DeleteKeeps }
    ensures takes { DeleteTakes }
    ensures sinks { DeleteSinks }
    ensures written { DeleteIsWritten }
    ensures edge { LeftEdgeIsNext }
    ensures local { DeleteIsLocal }
    ensures others { DeleteKeepsOthers }
    ensures room { DeleteHasRoom }
{}

/// Inserts and deletes worked by hand.
pub fn examples()
    ensures root_leaf_splits { RootLeafSplits }
    ensures two_levels_split { TwoLevelsSplit }
    ensures row_is_replaced { RowIsReplaced }
    ensures leaf_is_unlinked { LeafIsUnlinked }
    ensures first_row_goes { FirstRowGoes }
    ensures left_edge_moves { LeftEdgeMoves }
    ensures root_collapses { RootCollapses }
    ensures last_row_goes { LastRowGoes }
    ensures is_shown { IsShown }
    ensures is_way { IsWay }
    ensures pages_are_read { PagesAreRead }
    ensures pages_are_freed { PagesAreFreed }
{}
