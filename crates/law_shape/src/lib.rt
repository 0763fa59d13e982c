//! The items of a legal history, session by session.
#![tactic(auto)]

ghost use Rattle.law_shape.specs.Laws.{LegalIsServed, WholeIsServed, LegalHasItems, WholeHasItems, RepliesAreAllowed, TurnsMark, TurnsAreLegal};

/// In a legal history each session's items are the first statements of its script in order, each once, each
/// with what it owes at its record and told so, and maybe the next one, which is under way. Where every session
/// is done, they are all statements of its script.
pub fn service_laws()
    ensures legal { LegalIsServed }
    ensures whole { WholeIsServed }
{}

/// So each session's items, looked at by their shapes alone, are its statements in order, each once, the last
/// maybe unfinished. Where every session is done, they are finished and as many as its script has.
pub fn item_laws()
    ensures items { LegalHasItems }
    ensures whole { WholeHasItems }
{}

/// Each reply that goes with what a session was told of a finished statement is allowed where the statement's record
/// stands: it is what a one-thread database answers there, or 701.
pub fn reply_law()
    ensures { RepliesAreAllowed }
{}

/// Turns put a mark only where a check is under way, and once. So a legal history that turns have made, with
/// the replies that it tells, is a legal run.
pub fn turn_laws()
    ensures marks { TurnsMark }
    ensures legal { TurnsAreLegal }
{}
