// CREATE HEAP.
ghost use Rattle.std.specs.Prelude.{◌≡◌, ◌<◌, ◌≤◌, ℕ, List, [], IsTrue, Contains, IfErr, IfOk, length, string_bytes};
ghost use Rattle.spec_script.specs.declared.reply.Reply.TheVariants as reply;
ghost use Rattle.spec_statements.specs.Objects as spec;
ghost use Rattle.db_cat.specs.Rows.{row_of};
ghost use Rattle.db_locks.specs.declared.plan_pages.PageStop.TheVariants as stop;
ghost use Rattle.db_locks.specs.Does.{DoesAs};
ghost use Rattle.db_alloc.specs.Results.{value_as};
ghost use Rattle.db_table.specs.Creates.{create_stop, heap_created};

use crate::entries::put_row;
use crate::place::{CreateStop, Place, place_for};
use db_alloc::{new_chain, page_room};
use db_cat::CatRow;
use db_locks::{PageStop, PlanPages, look_catalog};
use pg_base::{Geometry, Kind, ObjId, Page, PageNo, Resource};
use spec_file::ENTRY_COUNT;
use spec_script::Name;
use std::alloc::Global;

// A heap without pages, whose chain has this page alone.
fn new_heap(alloc: Global, id: ObjId, name: &Name, first_iam: PageNo) -> Result<CatRow, PageStop>
    ensures row { IfOk result (λ row. row_of row ≡ spec.new_heap id.0 name.now first_iam.0) }
    ensures short { IfErr result (λ e. e ≡ stop.NoMemory) }
{
    match String::from_str(alloc, name.as_str()) {
        Ok(name) => Ok(CatRow {
            id,
            kind: Kind::Heap,
            name,
            first_iam,
            root: PageNo(0),
        }),
        Err(_) => Err(PageStop::NoMemory),
    }
}

// The heap of this name gets its id, its chain and its entry. Page 9, which the statement has reached, is read once
// more.
fn create_at<P: PlanPages>(
    alloc: Global,
    v: &mut P,
    geometry: Geometry,
    pages: u32,
    name: &Name,
    place: Place,
    buffer: &mut Page,
) -> Result<(), CreateStop>
    requires geometry { geometry ≡ (P.state v.old).view.shape.geometry }
    requires pages { pages ≡ (P.state v.old).view.shape.pages }
    requires name { length name.now ≤ 16 }
    requires within { place.entry < ENTRY_COUNT }
    ensures { (looked : List ℕ) → (IsTrue (P.state v.old).told → Contains looked 9) → DoesAs (create_stop name.now) looked (P.state v.old) (P.state v.new) (heap_created (P.state v.old).view.shape name.now place.id.0 place.entry) (value_as (λ done. reply.Done) result) }
{
    v.take(Resource::Table(place.id))?;
    let first_iam = new_chain(alloc, v, geometry, pages, place.id)?;
    let row = new_heap(alloc, place.id, name, first_iam)?;
    Ok(put_row(v, place.entry, &row, buffer)?)
}

// A heap of this name comes to be, with room for a page.
fn create_by<P: PlanPages>(
    alloc: Global,
    v: &mut P,
    geometry: Geometry,
    pages: u32,
    name: &Name,
    buffer: &mut Page,
) -> Result<(), CreateStop>
    requires geometry { geometry ≡ (P.state v.old).view.shape.geometry }
    requires pages { pages ≡ (P.state v.old).view.shape.pages }
    requires name { length name.now ≤ 16 }
    ensures { DoesAs (create_stop name.now) [] (P.state v.old) (P.state v.new) (spec.create_plan (P.state v.old).view.shape name.now) (value_as (λ done. reply.Done) result) }
{
    look_catalog(v, buffer)?;
    let place = place_for(alloc, buffer, name)?;
    create_at(alloc, v, geometry, pages, name, place, buffer)
}

/// CREATE HEAP: a heap of this name comes to be. `geometry` and `pages` are those of the view's file.
pub fn create_heap<P: PlanPages>(
    alloc: Global,
    v: &mut P,
    geometry: Geometry,
    pages: u32,
    name: &Name,
) -> Result<(), CreateStop>
    requires geometry { geometry ≡ (P.state v.old).view.shape.geometry }
    requires pages { pages ≡ (P.state v.old).view.shape.pages }
    requires name { length name.now ≤ 16 }
    ensures { DoesAs (create_stop name.now) [] (P.state v.old) (P.state v.new) (spec.create_plan (P.state v.old).view.shape name.now) (value_as (λ done. reply.Done) result) }
{
    let mut buffer = page_room(alloc)?;
    create_by(alloc, v, geometry, pages, name, &mut buffer)
}
