//! The law of a clean file: its parts, each guarded by one resource, are together a check that finds nothing wrong.
#![tactic(auto)]

ghost use Rattle.law_clean.specs.Laws.{CleanHasNoErrors, CleanHasEmptyReport, NextIsSeen, ChildIsSeen};

/// Every part of an image with a file's shape is clean exactly where no error stands, and where its report has none.
pub fn clean_laws()
    ensures errors { CleanHasNoErrors }
    ensures report { CleanHasEmptyReport }
{}

/// A clean table's pages name its own pages, as next and in index rows.
pub fn table_laws()
    ensures next { NextIsSeen }
    ensures child { ChildIsSeen }
{}
