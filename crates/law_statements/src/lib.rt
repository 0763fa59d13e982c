//! The laws of all planned statements: how they end, what they reply, and what a log gets of them; and CREATE and DROP in
//! small files.
#![tactic(auto)]

ghost use Rattle.law_statements.specs.Examples.{FirstIsCreated, NameIsToldFirst, ChainIsDropped, PagesAreDropped};
ghost use Rattle.law_statements.specs.Statements.{StatementsAreGood, StatementsAreNumbered, StatementsKeepBeginning, StatementsReplyPlainly};

/// Where a planned statement gives a reply, its changes and takes are good, and nobody else holds what it takes; it keeps
/// what it began on; the reply is neither a report nor the end of a check. Where it is refused, the number is neither 0
/// nor that of want of memory or of a fault.
pub fn statement_laws()
    ensures good { StatementsAreGood }
    ensures numbered { StatementsAreNumbered }
    ensures keep { StatementsKeepBeginning }
    ensures plain { StatementsReplyPlainly }
{}

/// Small files, worked by hand: what CREATE gives its first table, that a name that is there is told before a table that
/// is held, and what DROP leaves of a table without pages, and of one with pages in a slot and in a marked extent.
pub fn examples()
    ensures created { FirstIsCreated }
    ensures name { NameIsToldFirst }
    ensures chain { ChainIsDropped }
    ensures pages { PagesAreDropped }
{}
