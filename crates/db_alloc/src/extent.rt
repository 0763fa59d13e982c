// The lowest free extent becomes one that an object marks.
ghost use Rattle.std.specs.Prelude.{◌≡◌, ◌<◌, ◌==◌, ◌++◌, ℕ, List, filter, map, IsTrue, IfOk, IfSome, Contains};
ghost use Rattle.std.specs.Option.{option_map};
ghost use Rattle.spec_file.specs.Iam.{iam_interval};
ghost use Rattle.spec_file.specs.Image.{Image, page};
ghost use Rattle.spec_alloc.specs.ObjectPages as spec;
ghost use Rattle.spec_alloc.specs.Search.{first_in};
ghost use Rattle.db_cat.specs.Rows.{row_of};
ghost use Rattle.db_locks.specs.Does.{DoesAs, DoesAfter};
ghost use Rattle.db_alloc.specs.Maps.{IsOwnable};
ghost use Rattle.db_alloc.specs.Objects.{extent_opened, iam_had, HasChain};
ghost use Rattle.db_alloc.specs.Results.{value_as, alloc_stop};
ghost use Rattle.db_alloc.specs.Searches.{MayRead, WereReached};
ghost use Rattle.db_alloc.specs.Tables.{numbers, bytes_of};

use crate::Table;
use crate::chain::Chain;
use crate::grow::new_iam;
use crate::links::put_mark;
use crate::marked::take_marked;
use crate::search::{Maps, Reader, Wanted, search};
use crate::single::AllocStop;
use db_locks::{PageStop, PlanPages, set_gam_bit};
use pg_base::{ExtentNo, MAPS_START, Page, PageNo, u32_at};
use pg_geom::interval_pages;

// The first of these pages, whose bytes stand beside them, that speaks of an interval.
fn iam_of(chain: &[PageNo], iams: &[Box<Page>], interval: u32) -> Option<PageNo>
    ensures first { (image : Image) → bytes_of iams.now ≡ map (page image) (numbers chain.now) → option_map (λ q. q.0) result ≡ first_in (filter (λ q. iam_interval (page image q) == interval) (numbers chain.now)) }
    ensures among { IfSome result (λ q. Contains (numbers chain.now) q.0) }
{
    for i in 0..chain.len().min(iams.len()) {
        if u32_at(&iams[i].bytes, MAPS_START) == interval {
            return Some(chain[i]);
        }
    }
    None
}

// The page of the chain that speaks of the interval of page p. Where the chain has none, it grows by one.
fn find_iam<P: PlanPages>(
    v: &mut P,
    table: &Table,
    reader: Reader,
    chain: &Chain,
    path: &[PageNo],
    p: PageNo,
    maps: &mut Maps,
) -> Result<PageNo, AllocStop>
    requires reader { MayRead reader (P.state v.old).view }
    requires chain { HasChain chain.now (P.state v.old) }
    ensures does { (looked : List ℕ) → (IsTrue (P.state v.old).told → (q : ℕ) → Contains (numbers chain.now.numbers.items) q → Contains looked q) → DoesAs alloc_stop looked (P.state v.old) (P.state v.new) (iam_had (P.state v.old).view.shape (row_of table.now.row) (numbers chain.now.numbers.items) (numbers path.now) p.0) (value_as (λ q. q.0) result) }
    ensures ownable { IfOk result (λ q. IsOwnable (P.state v.old).view.shape q.0) }
{
    let interval = p.0 / interval_pages(reader.geometry);
    match iam_of(&chain.numbers, &chain.pages, interval) {
        Some(q) => Ok(q),
        None => new_iam(v, table, reader, &chain.numbers, path, p, maps),
    }
}

// Page p, the first of a free extent, becomes allocated in one that isn't free any more, and is taken.
fn open_extent<P: PlanPages>(
    v: &mut P,
    reader: Reader,
    chain: &[PageNo],
    path: &[PageNo],
    p: PageNo,
    maps: &mut Maps,
) -> Result<(), PageStop>
    requires reader { MayRead reader (P.state v.old).view }
    requires inside { p.0 < (P.state v.old).view.shape.pages }
    ensures { (looked : List ℕ) → (IsTrue (P.state v.old).told → WereReached looked (P.state v.old).view.shape p.0) → DoesAfter looked (P.state v.old) (P.state v.new) (extent_opened (P.state v.old).view.shape (numbers chain.now ++ numbers path.now) p.0) (value_as (λ done. p.0) result) }
{
    let geometry = reader.geometry;
    set_gam_bit(v, geometry, ExtentNo(p.0 / 8), 0, &mut maps.gam)?;
    take_marked(v, geometry, chain, path, p, &mut maps.pfs)
}

// Page p, the first of a free extent, is taken, and the table marks that extent.
fn mark_extent<P: PlanPages>(
    v: &mut P,
    table: &Table,
    reader: Reader,
    chain: &Chain,
    path: &[PageNo],
    p: PageNo,
    maps: &mut Maps,
) -> Result<(), AllocStop>
    requires reader { MayRead reader (P.state v.old).view }
    requires chain { HasChain chain.now (P.state v.old) }
    requires inside { p.0 < (P.state v.old).view.shape.pages }
    ensures { (looked : List ℕ) → (IsTrue (P.state v.old).told → WereReached looked (P.state v.old).view.shape p.0) → (IsTrue (P.state v.old).told → (q : ℕ) → Contains (numbers chain.now.numbers.items) q → Contains looked q) → DoesAs alloc_stop looked (P.state v.old) (P.state v.new) (spec.extent_marked (P.state v.old).view.shape (row_of table.now.row) (numbers chain.now.numbers.items) (numbers path.now) p.0) (value_as (λ done. p.0) result) }
{
    open_extent(v, reader, &chain.numbers, path, p, maps)?;
    let q = find_iam(v, table, reader, chain, path, p, maps)?;
    let e = ExtentNo(p.0 / 8);
    put_mark(v, reader.geometry, e, 1, q, &mut maps.pfs)?;
    Ok(())
}

/// The first page of the lowest free extent, which the table marks from then on; None where no extent is free.
pub(crate) fn extent_page<P: PlanPages>(
    v: &mut P,
    table: &Table,
    reader: Reader,
    chain: &Chain,
    path: &[PageNo],
    maps: &mut Maps,
) -> Result<Option<PageNo>, AllocStop>
    requires reader { MayRead reader (P.state v.old).view }
    requires chain { HasChain chain.now (P.state v.old) }
    ensures does { (looked : List ℕ) → (IsTrue (P.state v.old).told → (q : ℕ) → Contains (numbers chain.now.numbers.items) q → Contains looked q) → DoesAs alloc_stop looked (P.state v.old) (P.state v.new) (spec.extent_page (P.state v.old).view.shape (row_of table.now.row) (numbers chain.now.numbers.items) (numbers path.now)) (value_as (option_map (λ p. p.0)) result) }
    ensures ownable { IfOk result (λ found. IfSome found (λ p. IsOwnable (P.state v.old).view.shape p.0)) }
{
    match search(v, reader, Wanted::Unused, maps)? {
        Some(p) => {
            mark_extent(v, table, reader, chain, path, p, maps)?;
            Ok(Some(p))
        }
        None => Ok(None),
    }
}
