//! Laws of legal histories.
#![tactic(auto)]

ghost use Rattle.law_run.specs.Laws.{LegalIsSound, LegalPutsBytes, NextBelongs, BegunIsBounded, UnfinishedIsOpen};

/// A legal history is sound and puts bytes, and an item that may come next in a session belongs to it.
pub fn legal_laws()
    ensures sound { LegalIsSound }
    ensures bytes { LegalPutsBytes }
    ensures belongs { NextBelongs }
{}

/// What a statement owes from its record on has the form of the log's items, and is at most a record, an end, and the
/// most changes of a transaction or an Undo for each change that is left.
pub fn begun_law()
    ensures { BegunIsBounded }
{}

/// A transaction of a run over an empty log is unfinished only while a session has it open.
pub fn ongoing_law()
    ensures { UnfinishedIsOpen }
{}
