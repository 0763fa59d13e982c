// The chain of an object grows by a page, which speaks of an interval more.
ghost use Rattle.std.specs.Prelude.{◌≡◌, ◌≤◌, ℕ, List, length, IsTrue, IfOk, Contains};
ghost use Rattle.spec_plan.specs.Changes.{last_of};
ghost use Rattle.spec_alloc.specs.ObjectPages as spec;
ghost use Rattle.db_cat.specs.Rows.{row_of};
ghost use Rattle.db_locks.specs.Does.{DoesAs, DoesAfter};
ghost use Rattle.db_alloc.specs.Maps.{IsOwnable};
ghost use Rattle.db_alloc.specs.Objects.{last_page_put, IsChain};
ghost use Rattle.db_alloc.specs.Results.{value_as, alloc_stop};
ghost use Rattle.db_alloc.specs.Searches.{MayRead};
ghost use Rattle.db_alloc.specs.Tables.{numbers};

use crate::Table;
use crate::object::{fill_iam, take_page};
use crate::part::put_number;
use crate::search::{Maps, Reader};
use crate::single::{AllocStop, no_page, single_page};
use db_locks::{PageStop, PlanPages, put_page};
use pg_base::{ObjId, Page, PageNo};
use pg_geom::interval_pages;
use pg_pfs::{PfsKind, expected};

fn last_page(chain: &[PageNo]) -> PageNo
    requires { 1 ≤ length chain.now }
    ensures { result.0 ≡ last_of 0 (numbers chain.now) }
{
    chain[chain.len() - 1]
}

// Page q becomes the last page of the object's chain, and speaks of an interval. The last page until then, which
// the statement has reached, names it as its next.
fn put_last<P: PlanPages>(
    v: &mut P,
    object: ObjId,
    chain: &[PageNo],
    path: &[PageNo],
    interval: u32,
    q: PageNo,
    buffer: &mut Page,
) -> Result<(), PageStop>
    requires chain { IsChain (P.state v.old).view.shape chain.now }
    requires ownable { IsOwnable (P.state v.old).view.shape q.0 }
    ensures { (looked : List ℕ) → (IsTrue (P.state v.old).told → Contains looked (last_of 0 (numbers chain.now))) → DoesAfter looked (P.state v.old) (P.state v.new) (last_page_put object.0 (numbers chain.now) (numbers path.now) interval q.0) (value_as (λ done. q.0) result) }
{
    let last = last_page(chain);
    take_page(v, q, chain, path, buffer)?;
    fill_iam(buffer, q, object, interval, chain.len() as u32, last);
    put_page(v, q, buffer)?;
    put_number(v, last, 16, q.0, buffer)
}

/// A single page becomes the last of the table's chain, and speaks of the interval of page p. Where none is to
/// be had, the statement stops as if no page were.
pub(crate) fn new_iam<P: PlanPages>(
    v: &mut P,
    table: &Table,
    reader: Reader,
    chain: &[PageNo],
    path: &[PageNo],
    p: PageNo,
    maps: &mut Maps,
) -> Result<PageNo, AllocStop>
    requires reader { MayRead reader (P.state v.old).view }
    requires chain { IsChain (P.state v.old).view.shape chain.now }
    ensures does { (looked : List ℕ) → (IsTrue (P.state v.old).told → Contains looked (last_of 0 (numbers chain.now))) → DoesAs alloc_stop looked (P.state v.old) (P.state v.new) (spec.new_iam (P.state v.old).view.shape (row_of table.now.row) (numbers chain.now) (numbers path.now) p.0) (value_as (λ q. q.0) result) }
    ensures ownable { IfOk result (λ q. IsOwnable (P.state v.old).view.shape q.0) }
{
    let interval = p.0 / interval_pages(reader.geometry);
    match single_page(v, reader, expected(PfsKind::Iam, 0), maps)? {
        Some(q) => {
            put_last(v, table.row.id, chain, path, interval, q, &mut maps.pfs)?;
            Ok(q)
        }
        None => Err(no_page(v, reader.pages)),
    }
}
