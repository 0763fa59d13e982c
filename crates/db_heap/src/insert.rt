// INSERT.
ghost use Rattle.std.specs.Prelude.{◌≡◌, ◌<◌, ◌≤◌, ℕ, List, [], IsTrue, All, length};
ghost use Rattle.spec_rows.specs.Rows.{is_data_row};
ghost use Rattle.spec_script.specs.declared.reply.Reply.TheVariants as reply;
ghost use Rattle.spec_words.specs.Heaps as spec;
ghost use Rattle.db_cat.specs.Rows.{row_of};
ghost use Rattle.db_locks.specs.Does.{DoesAs};
ghost use Rattle.db_alloc.specs.Results.{value_as};
ghost use Rattle.db_alloc.specs.Tables.{numbers};
ghost use Rattle.db_heap.specs.Inserts.{WasByteRead};
ghost use Rattle.db_heap.specs.InsertPlans.{insert_stop, row_placed, row_inserted};

use crate::count::page_room;
use crate::room::find_room;
use crate::write::write_row;
use db_alloc::{FindStop, Table, find_table, pages_of};
use db_locks::{PageStop, PlanPages};
use heap_page::heap_row;
use pg_base::{Geometry, Page, PageNo, Resource};
use spec_file::{PAYLOAD_LIMIT, ROW_LIMIT};
use spec_script::Name;
use std::alloc::Global;

/// Why no row is inserted.
#[derive(Clone, Copy, Debug, PartialEq, Eq)]
pub enum InsertStop {
    Find(FindStop),
    /// No page of the table has room.
    NoRoom,
}

impl From<FindStop> for InsertStop {
    ghost use Rattle.db_heap.specs.declared.insert.InsertStop.TheVariants.{Find};

    ghost from_gives = { λ e stop. stop ≡ Find e };

    fn from(e: FindStop) -> Self {
        InsertStop::Find(e)
    }
}

impl From<PageStop> for InsertStop {
    ghost use Rattle.db_alloc.specs.declared.find.FindStop.TheVariants.{Page};
    ghost use Rattle.db_heap.specs.declared.insert.InsertStop.TheVariants.{Find};

    ghost from_gives = { λ e stop. stop ≡ Find (Page e) };

    fn from(e: PageStop) -> Self {
        InsertStop::Find(FindStop::Page(e))
    }
}

// A row goes on the first of these pages with room.
fn place_row<P: PlanPages>(
    v: &mut P,
    table: &Table,
    pages: &[PageNo],
    row: &[u8],
    page: &mut Page,
    buffer: &mut Page,
) -> Result<(), InsertStop>
    requires geometry { table.now.geometry ≡ (P.state v.old).view.shape.geometry }
    requires pages { table.now.pages ≡ (P.state v.old).view.shape.pages }
    requires inside { All (λ p. p < table.now.pages) (numbers pages.now) }
    requires small { length row.now ≤ ROW_LIMIT }
    requires row { IsTrue (is_data_row row.now) }
    ensures { (name looked : List ℕ) → (IsTrue (P.state v.old).told → All (WasByteRead looked (P.state v.old).view) (numbers pages.now)) → DoesAs (insert_stop name) looked (P.state v.old) (P.state v.new) (row_placed (P.state v.old).view.shape (row_of table.now.row) row.now (numbers pages.now)) (value_as (λ done. reply.Rows 1 []) result) }
{
    match find_room(v, table, row.len() as u16, pages, page)? {
        Some(p) => Ok(write_row(v, table, p, row, page, buffer)?),
        None => Err(InsertStop::NoRoom),
    }
}

// A row goes into a table.
fn insert_row<P: PlanPages>(
    alloc: Global,
    v: &mut P,
    table: &Table,
    row: &[u8],
    page: &mut Page,
    buffer: &mut Page,
) -> Result<(), InsertStop>
    requires geometry { table.now.geometry ≡ (P.state v.old).view.shape.geometry }
    requires pages { table.now.pages ≡ (P.state v.old).view.shape.pages }
    requires small { length row.now ≤ ROW_LIMIT }
    requires row { IsTrue (is_data_row row.now) }
    ensures { (name : List ℕ) → DoesAs (insert_stop name) [] (P.state v.old) (P.state v.new) (row_inserted (P.state v.old).view.shape (row_of table.now.row) row.now) (value_as (λ done. reply.Rows 1 []) result) }
{
    let pages = pages_of(alloc, v, table)?;
    v.take(Resource::Table(table.row.id))?;
    place_row(v, table, &pages, row, page, buffer)
}

/// INSERT: a row of this key and payload goes into the table of this name. `geometry` and `pages` are those
/// of the view's file.
pub fn heap_insert<P: PlanPages>(
    alloc: Global,
    v: &mut P,
    geometry: Geometry,
    pages: u32,
    name: &Name,
    key: u64,
    payload: &[u8],
) -> Result<(), InsertStop>
    requires geometry { geometry ≡ (P.state v.old).view.shape.geometry }
    requires pages { pages ≡ (P.state v.old).view.shape.pages }
    requires payload { length payload.now ≤ PAYLOAD_LIMIT }
    ensures { DoesAs (insert_stop name.now) [] (P.state v.old) (P.state v.new) (spec.insert_plan (P.state v.old).view.shape name.now key payload.now) (value_as (λ done. reply.Rows 1 []) result) }
{
    let mut page = page_room(alloc)?;
    let mut buffer = page_room(alloc)?;
    let mut bytes = [0; ROW_LIMIT];
    let size = heap_row(key, payload, &mut bytes);
    let row = find_table(alloc, v, name)?;
    let table = Table {
        row,
        geometry,
        pages,
    };
    insert_row(
        alloc,
        v,
        &table,
        &bytes[..size as usize],
        &mut page,
        &mut buffer,
    )
}
