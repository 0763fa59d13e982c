//! Laws of rows: what a plan says of a page and of the catalog is what their relations say.
#![tactic(auto)]

ghost use Rattle.law_rows.specs.Laws.{CatalogPasses, InsertedIsWithRow, PagePasses};

/// The catalog and a heap's page pass the tests of a plan exactly where they pass their own. A row put in
/// behind the last one makes the page that a plan says.
pub fn row_laws()
    ensures catalog { CatalogPasses }
    ensures passes { PagePasses }
    ensures inserted { InsertedIsWithRow }
{}
