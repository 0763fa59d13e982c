//! Laws of CREATE and DROP: they leave a clean file clean.
#![tactic(auto)]

ghost use Rattle.law_tables.specs.Laws.{CreateKeepsMaps, CreateKeepsClean, CreateKeepsSgam, CreateLeavesParts, DropKeepsMaps, DropKeepsClean, DropKeepsSgam, DropLeavesParts};

/// CREATE leaves clean maps clean, and that of a heap the whole file clean; and SGAM exact, where its page is taken so. Of the
/// parts of a clean file only those of the catalog, of its table and of its page's extent read something else.
pub fn create_laws()
    ensures maps { CreateKeepsMaps }
    ensures clean { CreateKeepsClean }
    ensures sgam { CreateKeepsSgam }
    ensures parts { CreateLeavesParts }
{}

/// So does DROP, of an object of either kind; there the parts of the extents that it had anything of read something else.
pub fn drop_laws()
    ensures maps { DropKeepsMaps }
    ensures clean { DropKeepsClean }
    ensures sgam { DropKeepsSgam }
    ensures parts { DropLeavesParts }
{}
