// One more page for a table.
ghost use Rattle.std.specs.Prelude.{◌≡◌, ℕ, List, [], IsTrue, IfOk, IfSome, None};
ghost use Rattle.std.specs.Option.{option_map};
ghost use Rattle.spec_file.specs.declared.data.Resource.TheVariants as resource;
ghost use Rattle.spec_alloc.specs.ObjectPages as spec;
ghost use Rattle.db_cat.specs.Rows.{row_of};
ghost use Rattle.db_locks.specs.Does.{DoesAs};
ghost use Rattle.db_alloc.specs.Maps.{IsOwnable};
ghost use Rattle.db_alloc.specs.Objects.{extent_had, page_had, HasChain, WasRead};
ghost use Rattle.db_alloc.specs.Results.{value_as, alloc_stop};
ghost use Rattle.db_alloc.specs.Searches.{MayRead};
ghost use Rattle.db_alloc.specs.Tables.{numbers};

use crate::Table;
use crate::chain::Chain;
use crate::extent::extent_page;
use crate::marked::marked_page;
use crate::owned::read_owned;
use crate::search::{Maps, Reader, map_room};
use crate::single::{AllocStop, no_page};
use crate::slot::slot_page;
use db_locks::PlanPages;
use pg_base::{PageNo, Resource};
use std::alloc::Global;

// A page of an extent that the table marks; else the first of the lowest free extent, which it marks from then on.
fn page_of_extent<P: PlanPages>(
    alloc: Global,
    v: &mut P,
    table: &Table,
    reader: Reader,
    chain: &Chain,
    path: &[PageNo],
    maps: &mut Maps,
) -> Result<Option<PageNo>, AllocStop>
    requires geometry { table.now.geometry ≡ (P.state v.old).view.shape.geometry }
    requires pages { table.now.pages ≡ (P.state v.old).view.shape.pages }
    requires reader { MayRead reader (P.state v.old).view }
    requires chain { HasChain chain.now (P.state v.old) }
    ensures does { (looked : List ℕ) → (IsTrue (P.state v.old).told → WasRead looked (P.state v.old).view (numbers chain.now.numbers.items)) → DoesAs alloc_stop looked (P.state v.old) (P.state v.new) (extent_had (P.state v.old).view.shape (row_of table.now.row) (numbers chain.now.numbers.items) (numbers path.now)) (value_as (option_map (λ p. p.0)) result) }
    ensures ownable { IfOk result (λ found. IfSome found (λ p. IsOwnable (P.state v.old).view.shape p.0)) }
{
    let found = marked_page(alloc, v, table, chain, path, reader.own, &mut maps.pfs)?;
    if found.is_some() {
        return Ok(found);
    }
    extent_page(v, table, reader, chain, path, maps)
}

// A single page for a slot of the chain that holds none; else a page of an extent.
fn next_page<P: PlanPages>(
    alloc: Global,
    v: &mut P,
    table: &Table,
    reader: Reader,
    chain: &Chain,
    path: &[PageNo],
    maps: &mut Maps,
) -> Result<Option<PageNo>, AllocStop>
    requires geometry { table.now.geometry ≡ (P.state v.old).view.shape.geometry }
    requires pages { table.now.pages ≡ (P.state v.old).view.shape.pages }
    requires reader { MayRead reader (P.state v.old).view }
    requires chain { HasChain chain.now (P.state v.old) }
    ensures does { (looked : List ℕ) → (IsTrue (P.state v.old).told → WasRead looked (P.state v.old).view (numbers chain.now.numbers.items)) → DoesAs alloc_stop looked (P.state v.old) (P.state v.new) (page_had (P.state v.old).view.shape (row_of table.now.row) (numbers chain.now.numbers.items) (numbers path.now)) (value_as (option_map (λ p. p.0)) result) }
    ensures ownable { IfOk result (λ found. IfSome found (λ p. IsOwnable (P.state v.old).view.shape p.0)) }
{
    let found = slot_page(v, reader, chain, path, maps)?;
    if found.is_some() {
        return Ok(found);
    }
    page_of_extent(alloc, v, table, reader, chain, path, maps)
}

/// One more page for the table: the first of three that is to be had. A single page, where a single-page slot of
/// its chain holds none, for the lowest such slot; the lowest page of an extent that it marks; the first page of
/// the lowest free extent, which it marks from then on, with one more page of its chain where none speaks of that
/// interval. The page becomes the table's and is allocated, and its own bytes stay. `path` are the pages on which
/// the statement stands: a page among these, or of the chain, is `Bad`, for it is taken already. Pages of maps are
/// read under the table, which nobody else holds.
pub fn alloc_page<P: PlanPages>(
    alloc: Global,
    v: &mut P,
    table: &Table,
    path: &[PageNo],
) -> Result<PageNo, AllocStop>
    requires geometry { table.now.geometry ≡ (P.state v.old).view.shape.geometry }
    requires pages { table.now.pages ≡ (P.state v.old).view.shape.pages }
    requires own { (P.state v.old).view.other (resource.Table table.now.row.id) ≡ None }
    ensures does { DoesAs alloc_stop [] (P.state v.old) (P.state v.new) (spec.object_page (P.state v.old).view.shape (row_of table.now.row) (numbers path.now)) (value_as (λ p. p.0) result) }
    ensures ownable { IfOk result (λ p. IsOwnable (P.state v.old).view.shape p.0) }
{
    let reader = Reader {
        geometry: table.geometry,
        pages: table.pages,
        own: Resource::Table(table.row.id),
    };
    let mut maps = map_room(alloc)?;
    let owned = read_owned(alloc, v, table)?;
    match next_page(alloc, v, table, reader, &owned.chain, path, &mut maps)? {
        Some(p) => Ok(p),
        None => Err(no_page(v, table.pages)),
    }
}
