//! Laws of the written check: what its rules read of a row, and that an image has no two reports.
#![tactic(auto)]

ghost use Rattle.law_check.specs.Laws.{KeyIsRead, ChildIsRead, SlotHasRow, SlotKeyIsRead, HeadIsRead, IndexRowIsRead, OneReport};

/// The keys and the pages that the rules read of rows are those of the rows of the grammar: in the bytes
/// of a row, in the slots of a page that passes its test, and in all that is known of an image.
pub fn reading_laws()
    ensures key { KeyIsRead }
    ensures child { ChildIsRead }
    ensures slots { SlotHasRow }
    ensures keys { SlotKeyIsRead }
    ensures heads { HeadIsRead }
    ensures rows { IndexRowIsRead }
{}

/// Two reports of which each is the written check of an image are equal.
pub fn report_law()
    ensures { OneReport }
{}
