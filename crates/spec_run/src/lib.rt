//! The words in which the crates above speak of a run: the entries of its history, what a statement
//! appends, and the shape of a session's items. They are this project's own.
#![tactic(auto)]

ghost use Rattle.spec_run.specs.Marks.{MarksChangeNothing};

/// A mark among the entries is no item: every image of the history stays.
pub fn mark_law()
    ensures { MarksChangeNothing }
{}
