//! The laws of a new file: it passes the file's tests, a check of it finds nothing wrong, and it holds no object.
#![tactic(auto)]

ghost use Rattle.law_make.specs.Examples.{FreeExtents, MixedExtent, PfsBytes, FirstBytes};
ghost use Rattle.law_make.specs.Laws.{NewFileIsWhole, NewFilePasses, NewFileIsClean, NewReportIsEmpty, NewFileHoldsNothing, NewSgamIsExact};

/// A new file of whole extents inside its geometry's limits has as many pages as it was to have, and its bytes pass each of
/// the file's tests, with this geometry.
pub fn form_laws()
    ensures whole { NewFileIsWhole }
    ensures passes { NewFilePasses }
{}

/// Every part of it is clean, a report of it lists no error and no table, its catalog holds no object, and SGAM is exact.
pub fn clean_laws()
    ensures clean { NewFileIsClean }
    ensures report { NewReportIsEmpty }
    ensures empty { NewFileHoldsNothing }
    ensures sgam { NewSgamIsExact }
{}

/// Small files, worked by hand: which extents are free and which is mixed, PFS bytes, and the bytes of page 0.
pub fn examples()
    ensures free { FreeExtents }
    ensures mixed { MixedExtent }
    ensures pfs { PfsBytes }
    ensures first { FirstBytes }
{}
