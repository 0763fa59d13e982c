//! Laws of single writes: of a bit of GAM or SGAM, of a PFS byte, of a page.
#![tactic(auto)]

ghost use Rattle.law_writes.specs.Laws.{FreeChangesOne, MixedChangesOne, ByteChangesOne, PageChangesOne, WritesChangeTheirs, PutSetsFree, PutSetsMixed, PutSetsByte, PutSetsPage};

/// Each write changes at most its own bit, byte or page, and what it sets stands there; and so do the writes of a step on
/// a single page, one after another.
pub fn at_most_laws()
    ensures free { FreeChangesOne }
    ensures mixed { MixedChangesOne }
    ensures byte { ByteChangesOne }
    ensures page { PageChangesOne }
    ensures step { WritesChangeTheirs }
{}

/// What a change of a log puts into the cell of a bit, a PFS byte or a page is such a write.
pub fn put_laws()
    ensures free { PutSetsFree }
    ensures mixed { PutSetsMixed }
    ensures byte { PutSetsByte }
    ensures page { PutSetsPage }
{}
