// What one page of an object shows.
ghost use Rattle.std.specs.Prelude.{◌≡◌, ◌↔◌, true, false, [], ◌∷◌, IsTrue, IfOk};
ghost use Rattle.spec_rows.specs.PageTest.{PassesTest};
ghost use Rattle.spec_file.specs.CatalogRows.{CatalogRow};
ghost use Rattle.spec_tables.specs.PageRules.{IsErrorOn};
ghost use Rattle.spec_tables.specs.Seen.{rows_on};
ghost use Rattle.ck_error.specs.Gathered.{Gathers};
ghost use Rattle.db_cat.specs.Rows.{row_of};
ghost use Rattle.ck_facts.specs.Facts.{page_facts, facts_on, rows_seen};
ghost use Rattle.ck_facts.specs.Tested.{page_bytes};

use crate::page::TestedPage;
use crate::shown::{errors_of, fault_error};
use crate::{CatRow, CheckError};
use pg_base::{NoMemory, ObjId, Page, PageNo, read_header};
use pg_slots::test_page;
use smallvec::SmallVec;
use spec_tree::{IndexRow, PageHead};
use std::alloc::Global;

/// What one page shows for the rules of trees.
#[derive(Clone, Copy, Debug, PartialEq, Eq)]
pub enum Fact {
    /// The page passed its test.
    Seen(PageHead),
    /// It is an index page, and this is one of its rows.
    Child(IndexRow),
}

// A `SmallVec` fills its unused places with it.
impl Default for Fact {
    fn default() -> Fact {
        Fact::Seen(PageHead {
            object: ObjId(0),
            page: PageNo(0),
            level: 0,
            prev: PageNo(0),
            next: PageNo(0),
            first: None,
            last: None,
            last_child: PageNo(0),
        })
    }
}

/// What one page of an object shows by itself, and what it shows for the rules of trees.
#[derive(Drop)]
pub struct PageFacts {
    pub errors: SmallVec<CheckError, 4>,
    pub facts: SmallVec<Fact, 8>,
    /// How many data rows it has, where it passed its test; else 0.
    pub rows: u64,
    /// Whether it passed its test.
    pub seen: bool,
}

// What the page says of itself, and its index rows in the order of their slots.
fn page_facts(alloc: Global, page: &TestedPage<'_>) -> Result<SmallVec<Fact, 8>, NoMemory>
    ensures { IfOk result (λ facts. facts.items ≡ page_facts page.now.object.0 page.now.number.0 (page_bytes page.now)) }
{
    let mut facts = SmallVec::new(alloc);
    facts.push(Fact::Seen(page.head()))?;
    for slot in 0..page.index_rows() {
        facts.push(Fact::Child(page.index_row(slot)))?;
    }
    Ok(facts)
}

// A page that passed its test.
fn shown_by(alloc: Global, page: &TestedPage<'_>, pfs: u8) -> Result<PageFacts, NoMemory>
    ensures errors { IfOk result (λ shown. (row : CatalogRow) → row.id ≡ page.now.object.0 → row.kind ≡ page.now.kind
        → Gathers shown.errors.items (IsErrorOn row page.now.number.0 pfs (page_bytes page.now))) }
    ensures seen { IfOk result (λ shown. shown.seen ≡ true) }
    ensures facts { IfOk result (λ shown. shown.facts.items ≡ page_facts page.now.object.0 page.now.number.0 (page_bytes page.now)) }
    ensures rows { IfOk result (λ shown. shown.rows ≡ rows_on (page_bytes page.now)) }
{
    Ok(PageFacts {
        errors: errors_of(alloc, page, pfs)?,
        facts: page_facts(alloc, page)?,
        rows: page.data_rows(),
        seen: true,
    })
}

// A page that fails its test: only its fault is told.
fn unseen(alloc: Global, error: CheckError) -> Result<PageFacts, NoMemory>
    ensures errors { IfOk result (λ shown. shown.errors.items ≡ error ∷ []) }
    ensures seen { IfOk result (λ shown. shown.seen ≡ false) }
    ensures facts { IfOk result (λ shown. shown.facts.items ≡ []) }
    ensures rows { IfOk result (λ shown. shown.rows ≡ 0) }
{
    let mut errors = SmallVec::new(alloc);
    errors.push(error)?;
    Ok(PageFacts {
        errors,
        facts: SmallVec::new(alloc),
        rows: 0,
        seen: false,
    })
}

/// What page p of an object shows, with its PFS byte: the first test that it fails; or the keys out of order,
/// the wrong fullness and its facts. The page's role isn't asked.
pub fn facts_of_page(
    alloc: Global,
    page: &Page,
    p: PageNo,
    row: &CatRow,
    pfs: u8,
) -> Result<PageFacts, NoMemory>
    ensures errors { IfOk result (λ shown. Gathers shown.errors.items (IsErrorOn (row_of row.now) p.0 pfs page.now.bytes)) }
    ensures seen { IfOk result (λ shown. IsTrue shown.seen ↔ PassesTest p.0 row.now.id.0 row.now.kind page.now.bytes) }
    ensures facts { IfOk result (λ shown. shown.facts.items ≡ facts_on shown.seen row.now.id.0 p.0 page.now.bytes) }
    ensures rows { IfOk result (λ shown. shown.rows ≡ rows_seen shown.seen page.now.bytes) }
{
    match test_page(page, p, row.id, row.kind) {
        Ok(view) => {
            let tested = TestedPage {
                object: row.id,
                kind: row.kind,
                number: p,
                header: read_header(page),
                view,
            };
            let shown = shown_by(alloc, &tested, pfs)?;
            Ok(shown)
        }
        Err(fault) => {
            let shown = unseen(alloc, fault_error(row.id, p, &fault))?;
            Ok(shown)
        }
    }
}
