// DROP gives back what an object owns: its pages, its chain, and the extents that it marks.
ghost use Rattle.std.specs.Prelude.{◌≡◌, ◌<◌, ◌≤◌, ◌/◌, ℕ, List, IsTrue, None, length, map, All};
ghost use Rattle.spec_file.specs.declared.data.Resource.TheVariants as resource;
ghost use Rattle.spec_file.specs.Image.{page};
ghost use Rattle.spec_file.specs.Places as places;
ghost use Rattle.spec_file.specs.Roles as roles;
ghost use Rattle.spec_words.specs.Words.{where_good, for_each};
ghost use Rattle.spec_alloc.specs.Freeing as freeing;
ghost use Rattle.spec_alloc.specs.Objects as spec;
ghost use Rattle.db_cat.specs.Rows.{row_of};
ghost use Rattle.db_locks.specs.States.{PlanState};
ghost use Rattle.db_locks.specs.Does.{Does, DoesAfter};
ghost use Rattle.db_alloc.specs.Drops.{HasReached, extents, extents_dropped, owned_dropped};
ghost use Rattle.db_alloc.specs.Maps.{IsOwnable};
ghost use Rattle.db_alloc.specs.Marks.{first_slots};
ghost use Rattle.db_alloc.specs.Tables.{numbers, bytes_of};

use crate::Table;
use crate::buffer::page_room;
use crate::chain::Chain;
use crate::free::{left_freed, marked_freed, shared_freed};
use crate::left::left_extents;
use crate::marks::{chain_slots, is_shared};
use crate::owned::{Owned, read_owned};
use db_locks::{PageStop, PlanPages};
use pg_base::{ExtentNo, Geometry, Page, PageNo, Resource};
use pg_geom::is_ordinary;
use std::alloc::Global;

// The lowest of these that objects may not own is bad.
fn check_ordinary(geometry: Geometry, pages: &[PageNo]) -> Result<(), PageStop>
    requires { All (λ p. p < places.page_limit geometry) (numbers pages.now) }
    ensures { (a : PlanState) → Does a a (for_each (λ p. where_good (roles.is_ordinary geometry p) p) (numbers pages.now)) result }
{
    for p in pages {
        if !is_ordinary(geometry, *p) {
            return Err(PageStop::Bad(*p));
        }
    }
    Ok(())
}

// Gives back one page of an object that has this chain and these single-page slots.
fn drop_page<P: PlanPages>(
    v: &mut P,
    geometry: Geometry,
    chain: &[PageNo],
    slots: &[PageNo],
    p: PageNo,
    own: Resource,
    buffer: &mut Page,
) -> Result<(), PageStop>
    requires geometry { geometry ≡ (P.state v.old).view.shape.geometry }
    requires inside { p.0 < (P.state v.old).view.shape.pages }
    requires own { (P.state v.old).view.other own ≡ None }
    requires some { 1 ≤ length (numbers chain.now) }
    requires slots { IsTrue (P.state v.old).told → numbers slots.now ≡ first_slots (map (page (P.state v.old).view.now) (numbers chain.now)) }
    ensures { Does (P.state v.old) (P.state v.new) (spec.page_dropped (P.state v.old).view.shape (numbers chain.now) p.0) result }
{
    if is_shared(slots, chain, p) {
        return shared_freed(v, geometry, p, own, buffer);
    }
    marked_freed(v, geometry, p, own, buffer)?;
    Ok(())
}

// Gives back these pages of the object.
fn drop_pages<P: PlanPages>(
    v: &mut P,
    geometry: Geometry,
    chain: &[PageNo],
    slots: &[PageNo],
    pages: &[PageNo],
    own: Resource,
    buffer: &mut Page,
) -> Result<(), PageStop>
    requires geometry { geometry ≡ (P.state v.old).view.shape.geometry }
    requires inside { All (λ p. p < (P.state v.old).view.shape.pages) (numbers pages.now) }
    requires own { (P.state v.old).view.other own ≡ None }
    requires some { 1 ≤ length (numbers chain.now) }
    requires chain { All (IsOwnable (P.state v.old).view.shape) (numbers chain.now) }
    requires slots { IsTrue (P.state v.old).told → numbers slots.now ≡ first_slots (map (page (P.state v.old).view.now) (numbers chain.now)) }
    ensures { Does (P.state v.old) (P.state v.new) (for_each (spec.page_dropped (P.state v.old).view.shape (numbers chain.now)) (numbers pages.now)) result }
{
    for p in pages {
        drop_page(v, geometry, chain, slots, *p, own, buffer)?;
    }
    Ok(())
}

// Gives back the pages of a chain.
fn free_shared<P: PlanPages>(
    v: &mut P,
    geometry: Geometry,
    chain: &[PageNo],
    own: Resource,
    buffer: &mut Page,
) -> Result<(), PageStop>
    requires geometry { geometry ≡ (P.state v.old).view.shape.geometry }
    requires chain { All (IsOwnable (P.state v.old).view.shape) (numbers chain.now) }
    requires own { (P.state v.old).view.other own ≡ None }
    ensures { Does (P.state v.old) (P.state v.new) (for_each (freeing.shared_freed (P.state v.old).view.shape) (numbers chain.now)) result }
{
    for p in chain {
        shared_freed(v, geometry, *p, own, buffer)?;
    }
    Ok(())
}

// Frees these extents.
fn free_extents<P: PlanPages>(
    v: &mut P,
    geometry: Geometry,
    left: &[ExtentNo],
    own: Resource,
    buffer: &mut Page,
) -> Result<(), PageStop>
    requires geometry { geometry ≡ (P.state v.old).view.shape.geometry }
    requires inside { All (λ e. e < (P.state v.old).view.shape.pages / 8) (extents left.now) }
    requires own { (P.state v.old).view.other own ≡ None }
    ensures { Does (P.state v.old) (P.state v.new) (for_each (spec.left_freed (P.state v.old).view.shape) (extents left.now)) result }
{
    for e in left {
        left_freed(v, geometry, *e, own, buffer)?;
    }
    Ok(())
}

// Frees the extents that the chain marks and that aren't in use.
fn free_left<P: PlanPages>(
    alloc: Global,
    v: &mut P,
    table: &Table,
    chain: &Chain,
    own: Resource,
    buffer: &mut Page,
) -> Result<(), PageStop>
    requires geometry { table.now.geometry ≡ (P.state v.old).view.shape.geometry }
    requires pages { table.now.pages ≡ (P.state v.old).view.shape.pages }
    requires own { (P.state v.old).view.other own ≡ None }
    requires chain { IsTrue (P.state v.old).told → bytes_of chain.now.pages.items ≡ map (page (P.state v.old).view.now) (numbers chain.now.numbers.items) }
    ensures { (looked : List ℕ) → (IsTrue (P.state v.old).told → HasReached looked (P.state v.old).view (numbers chain.now.numbers.items)) → DoesAfter looked (P.state v.old) (P.state v.new) (extents_dropped (P.state v.old).view.shape (numbers chain.now.numbers.items)) result }
{
    let left = left_extents(alloc, v, table, chain, own, buffer)?;
    free_extents(v, table.geometry, &left, own, buffer)
}

// Gives back what an object owns.
fn drop_owned<P: PlanPages>(
    alloc: Global,
    v: &mut P,
    table: &Table,
    owned: &Owned,
    own: Resource,
    buffer: &mut Page,
) -> Result<(), PageStop>
    requires geometry { table.now.geometry ≡ (P.state v.old).view.shape.geometry }
    requires pages { table.now.pages ≡ (P.state v.old).view.shape.pages }
    requires own { (P.state v.old).view.other own ≡ None }
    requires some { 1 ≤ length owned.now.chain.numbers.items }
    requires chain { IsTrue (P.state v.old).told → bytes_of owned.now.chain.pages.items ≡ map (page (P.state v.old).view.now) (numbers owned.now.chain.numbers.items) }
    requires ownable { All (IsOwnable (P.state v.old).view.shape) (numbers owned.now.chain.numbers.items) }
    requires inside { All (λ p. p < table.now.pages) (numbers owned.now.pages.items) }
    ensures { (looked : List ℕ) → (IsTrue (P.state v.old).told → HasReached looked (P.state v.old).view (numbers owned.now.chain.numbers.items)) → DoesAfter looked (P.state v.old) (P.state v.new) (owned_dropped (P.state v.old).view.shape (numbers owned.now.chain.numbers.items) (numbers owned.now.pages.items)) result }
{
    check_ordinary(table.geometry, &owned.pages)?;
    let chain = &owned.chain;
    let slots = chain_slots(chain);
    drop_pages(
        v,
        table.geometry,
        &chain.numbers,
        &slots,
        &owned.pages,
        own,
        buffer,
    )?;
    free_shared(v, table.geometry, &chain.numbers, own, buffer)?;
    free_left(alloc, v, table, chain, own, buffer)
}

/// Gives back all that a table owns, as DROP does: its pages, rising, then those of its chain, then each extent
/// that it marks and that isn't in use. Pages of maps are read under the table, which nobody else holds.
pub fn free_chain<P: PlanPages>(alloc: Global, v: &mut P, table: &Table) -> Result<(), PageStop>
    requires geometry { table.now.geometry ≡ (P.state v.old).view.shape.geometry }
    requires pages { table.now.pages ≡ (P.state v.old).view.shape.pages }
    requires own { (P.state v.old).view.other (resource.Table table.now.row.id) ≡ None }
    ensures { Does (P.state v.old) (P.state v.new) (spec.pages_dropped (P.state v.old).view.shape (row_of table.now.row)) result }
{
    let own = Resource::Table(table.row.id);
    let mut buffer = page_room(alloc)?;
    let owned = read_owned(alloc, v, table)?;
    drop_owned(alloc, v, table, &owned, own, &mut buffer)
}
