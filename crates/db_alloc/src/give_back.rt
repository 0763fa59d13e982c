// A page of an object is given back, and is the object's no more.
ghost use Rattle.std.specs.Prelude.{◌≡◌, ◌<◌, ◌≤◌, ℕ, List, IsTrue, None, Contains, length, map, All};
ghost use Rattle.spec_file.specs.declared.data.Resource.TheVariants as resource;
ghost use Rattle.spec_file.specs.Image.{page};
ghost use Rattle.spec_plan.specs.Reading.{first_page};
ghost use Rattle.spec_alloc.specs.Freeing as spec;
ghost use Rattle.db_cat.specs.Rows.{row_of};
ghost use Rattle.db_locks.specs.Does.{Does, DoesAfter};
ghost use Rattle.db_alloc.specs.Frees.{single_freed, last_freed, owned_freed};
ghost use Rattle.db_alloc.specs.Maps.{IsOwnable};
ghost use Rattle.db_alloc.specs.Marks.{first_slots};
ghost use Rattle.db_alloc.specs.Tables.{numbers, bytes_of};

use crate::Table;
use crate::buffer::page_room;
use crate::chain::Chain;
use crate::free::{marked_freed, shared_freed};
use crate::links::{put_mark, put_slot};
use crate::list::has_page;
use crate::marks::{chain_slots, is_shared, marks};
use crate::owned::read_owned;
use db_locks::{PageStop, PlanPages};
use pg_base::{ExtentNo, Geometry, Page, PageNo, Resource};
use std::alloc::Global;

// No slot of the chain holds page p any more. These are its slots, as they stand.
fn empty_slots<P: PlanPages>(
    v: &mut P,
    chain: &[PageNo],
    slots: &[PageNo],
    p: PageNo,
    buffer: &mut Page,
) -> Result<(), PageStop>
    requires some { 1 ≤ length chain.now }
    requires chain { All (IsOwnable (P.state v.old).view.shape) (numbers chain.now) }
    requires few { length slots.now ≤ 8 }
    requires slots { IsTrue (P.state v.old).told → numbers slots.now ≡ first_slots (map (page (P.state v.old).view.now) (numbers chain.now)) }
    ensures { (looked : List ℕ) → (IsTrue (P.state v.old).told → Contains looked (first_page (numbers chain.now))) → DoesAfter looked (P.state v.old) (P.state v.new) (spec.slots_emptied (numbers chain.now) p.0) result }
{
    for i in 0..slots.len() {
        if slots[i].0 == p.0 {
            put_slot(v, chain, PageNo(0), i, buffer)?;
        }
    }
    Ok(())
}

// Page p, which one of these slots holds, or the chain has, is given back.
fn free_single<P: PlanPages>(
    v: &mut P,
    geometry: Geometry,
    chain: &[PageNo],
    slots: &[PageNo],
    p: PageNo,
    own: Resource,
    buffer: &mut Page,
) -> Result<(), PageStop>
    requires geometry { geometry ≡ (P.state v.old).view.shape.geometry }
    requires inside { p.0 < (P.state v.old).view.shape.pages }
    requires own { (P.state v.old).view.other own ≡ None }
    requires some { 1 ≤ length chain.now }
    requires chain { All (IsOwnable (P.state v.old).view.shape) (numbers chain.now) }
    requires few { length slots.now ≤ 8 }
    requires slots { IsTrue (P.state v.old).told → numbers slots.now ≡ first_slots (map (page (P.state v.old).view.now) (numbers chain.now)) }
    ensures { (looked : List ℕ) → (IsTrue (P.state v.old).told → Contains looked (first_page (numbers chain.now))) → DoesAfter looked (P.state v.old) (P.state v.new) (single_freed (P.state v.old).view.shape (numbers chain.now) p.0) result }
{
    shared_freed(v, geometry, p, own, buffer)?;
    empty_slots(v, chain, slots, p, buffer)
}

// No page of the chain marks the extent of page p any more. These are its pages, as they stand.
fn empty_marks<P: PlanPages>(
    v: &mut P,
    geometry: Geometry,
    chain: &[PageNo],
    iams: &[Box<Page>],
    p: PageNo,
    buffer: &mut Page,
) -> Result<(), PageStop>
    requires geometry { geometry ≡ (P.state v.old).view.shape.geometry }
    requires chain { All (IsOwnable (P.state v.old).view.shape) (numbers chain.now) }
    requires read { IsTrue (P.state v.old).told → bytes_of iams.now ≡ map (page (P.state v.old).view.now) (numbers chain.now) }
    ensures { (looked : List ℕ) → (IsTrue (P.state v.old).told → (q : ℕ) → Contains (numbers chain.now) q → Contains looked q) → DoesAfter looked (P.state v.old) (P.state v.new) (spec.marks_emptied (P.state v.old).view.shape (numbers chain.now) p.0) result }
{
    for (q, iam) in chain.iter().zip(iams) {
        if marks(geometry, iam, p) {
            put_mark(v, geometry, ExtentNo(p.0 / 8), 0, *q, buffer)?;
        }
    }
    Ok(())
}

// Page p of an extent that the chain marks is given back.
fn free_marked<P: PlanPages>(
    v: &mut P,
    geometry: Geometry,
    chain: &Chain,
    p: PageNo,
    own: Resource,
    buffer: &mut Page,
) -> Result<(), PageStop>
    requires geometry { geometry ≡ (P.state v.old).view.shape.geometry }
    requires inside { p.0 < (P.state v.old).view.shape.pages }
    requires own { (P.state v.old).view.other own ≡ None }
    requires ownable { All (IsOwnable (P.state v.old).view.shape) (numbers chain.now.numbers.items) }
    requires chain { IsTrue (P.state v.old).told → bytes_of chain.now.pages.items ≡ map (page (P.state v.old).view.now) (numbers chain.now.numbers.items) }
    ensures { (looked : List ℕ) → (IsTrue (P.state v.old).told → (q : ℕ) → Contains (numbers chain.now.numbers.items) q → Contains looked q) → DoesAfter looked (P.state v.old) (P.state v.new) (last_freed (P.state v.old).view.shape (numbers chain.now.numbers.items) p.0) result }
{
    let in_use = marked_freed(v, geometry, p, own, buffer)?;
    if in_use {
        return Ok(());
    }
    empty_marks(v, geometry, &chain.numbers, &chain.pages, p, buffer)
}

// Page p of an object that has this chain is given back.
fn free_owned<P: PlanPages>(
    v: &mut P,
    geometry: Geometry,
    chain: &Chain,
    p: PageNo,
    own: Resource,
    buffer: &mut Page,
) -> Result<(), PageStop>
    requires geometry { geometry ≡ (P.state v.old).view.shape.geometry }
    requires inside { p.0 < (P.state v.old).view.shape.pages }
    requires own { (P.state v.old).view.other own ≡ None }
    requires some { 1 ≤ length chain.now.numbers.items }
    requires ownable { All (IsOwnable (P.state v.old).view.shape) (numbers chain.now.numbers.items) }
    requires chain { IsTrue (P.state v.old).told → bytes_of chain.now.pages.items ≡ map (page (P.state v.old).view.now) (numbers chain.now.numbers.items) }
    ensures { (looked : List ℕ) → (IsTrue (P.state v.old).told → (q : ℕ) → Contains (numbers chain.now.numbers.items) q → Contains looked q) → DoesAfter looked (P.state v.old) (P.state v.new) (owned_freed (P.state v.old).view.shape (numbers chain.now.numbers.items) p.0) result }
{
    let slots = chain_slots(chain);
    if is_shared(&slots, &chain.numbers, p) {
        return free_single(v, geometry, &chain.numbers, &slots, p, own, buffer);
    }
    free_marked(v, geometry, chain, p, own, buffer)
}

/// Gives page p of an object back: with the slots that hold it, or, with the last page of an extent that
/// the object marks, the extent and its marks. 824 at p where it isn't allocated to the object. Pages of
/// maps are read under the table, which nobody else holds.
pub fn free_page<P: PlanPages>(
    alloc: Global,
    v: &mut P,
    table: &Table,
    p: PageNo,
) -> Result<(), PageStop>
    requires geometry { table.now.geometry ≡ (P.state v.old).view.shape.geometry }
    requires pages { table.now.pages ≡ (P.state v.old).view.shape.pages }
    requires own { (P.state v.old).view.other (resource.Table table.now.row.id) ≡ None }
    ensures { Does (P.state v.old) (P.state v.new) (spec.object_page_freed (P.state v.old).view.shape (row_of table.now.row) p.0) result }
{
    let own = Resource::Table(table.row.id);
    let mut buffer = page_room(alloc)?;
    let owned = read_owned(alloc, v, table)?;
    if !has_page(&owned.pages, p) {
        return Err(PageStop::Bad(p));
    }
    free_owned(v, table.geometry, &owned.chain, p, own, &mut buffer)
}
