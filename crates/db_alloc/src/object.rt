// An object gets pages.
ghost use Rattle.std.specs.Prelude.{◌≡◌, ◌<◌, ℕ, List, [], None, IsTrue, OnOk, Contains, ◌++◌, ◌==◌};
ghost use Rattle.std.specs.List.{list_any};
ghost use Rattle.spec_file.specs.declared.data.Resource.TheVariants as resource;
ghost use Rattle.spec_words.specs.Words.{put_page as page_put};
ghost use Rattle.spec_alloc.specs.Chains.{page_taken, new_iam_page};
ghost use Rattle.spec_alloc.specs.Objects as spec;
ghost use Rattle.db_locks.specs.Does.{Does, DoesAs, DoesAfter};
ghost use Rattle.db_alloc.specs.Results.{value_as, alloc_stop};
ghost use Rattle.db_alloc.specs.Tables.{numbers};
ghost use Rattle.db_alloc.specs.Maps.{IsOwnable};
ghost use Rattle.db_alloc.specs.Objects.{first_page_put};

use crate::list::has_page;
use crate::look::look_page;
use crate::search::{Reader, map_room};
use crate::single::{AllocStop, no_page, single_page};
use db_locks::{PageStop, PlanPages, put_page};
use pg_base::{Geometry, ObjId, Page, PageNo, Resource, is_whole};
use pg_iam::make_iam;
use pg_pfs::{PfsKind, expected};
use std::alloc::Global;

// Page p is among these, on which a statement stands: those of a chain, and those of its path.
fn is_stood_on(chain: &[PageNo], path: &[PageNo], p: PageNo) -> bool
    ensures { result ≡ list_any (λ q. q == p.0) (numbers chain.now ++ numbers path.now) }
{
    has_page(chain, p) || has_page(path, p)
}

/// Page p is read, and is none of those on which the statement stands.
pub(crate) fn take_page<P: PlanPages>(
    v: &mut P,
    p: PageNo,
    chain: &[PageNo],
    path: &[PageNo],
    buffer: &mut Page,
) -> Result<(), PageStop>
    requires inside { p.0 < (P.state v.old).view.shape.pages }
    ensures does { Does (P.state v.old) (P.state v.new) (page_taken (numbers chain.now ++ numbers path.now) p.0) (value_as (λ done. p.0) result) }
    ensures reached { OnOk result (IsTrue (P.state v.old).told → Contains (page_taken (numbers chain.now ++ numbers path.now) p.0 (P.state v.old).view).reached p.0) }
{
    look_page(v, p, buffer)?;
    if is_stood_on(chain, path, p) {
        return Err(PageStop::Bad(p));
    }
    Ok(())
}

/// The bytes of a new IAM page.
pub(crate) fn fill_iam(
    page: &mut Page,
    q: PageNo,
    object: ObjId,
    interval: u32,
    sequence: u32,
    prev: PageNo,
)
    ensures { page.new.bytes ≡ new_iam_page object.0 q.0 prev.0 interval sequence }
{
    make_iam(page, q, object, interval, sequence, prev);
    is_whole(page);
}

// Page q becomes the only page of an object's chain.
fn put_chain<P: PlanPages>(
    v: &mut P,
    q: PageNo,
    object: ObjId,
    buffer: &mut Page,
) -> Result<(), PageStop>
    requires ownable { IsOwnable (P.state v.old).view.shape q.0 }
    ensures { Does (P.state v.old) (P.state v.new) (first_page_put object.0 q.0) (value_as (λ done. q.0) result) }
{
    take_page(v, q, &[], &[], buffer)?;
    fill_iam(buffer, q, object, 0, 0, PageNo(0));
    put_page(v, q, buffer)
}

/// A new object gets the page of its chain: a single page, which speaks of the first interval. `geometry`
/// and `pages` are those of the view's file. No other transaction holds the object's table.
pub fn new_chain<P: PlanPages>(
    alloc: Global,
    v: &mut P,
    geometry: Geometry,
    pages: u32,
    object: ObjId,
) -> Result<PageNo, AllocStop>
    requires geometry { geometry ≡ (P.state v.old).view.shape.geometry }
    requires pages { pages ≡ (P.state v.old).view.shape.pages }
    requires own { (P.state v.old).view.other (resource.Table object) ≡ None }
    ensures { DoesAs alloc_stop [] (P.state v.old) (P.state v.new) (spec.new_chain (P.state v.old).view.shape object.0) (value_as (λ p. p.0) result) }
{
    let own = Resource::Table(object);
    let reader = Reader {
        geometry,
        pages,
        own,
    };
    let mut maps = map_room(alloc)?;
    match single_page(v, reader, expected(PfsKind::Iam, 0), &mut maps)? {
        Some(q) => {
            put_chain(v, q, object, &mut maps.pfs)?;
            Ok(q)
        }
        None => Err(no_page(v, pages)),
    }
}
