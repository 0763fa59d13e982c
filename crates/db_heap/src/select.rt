// SELECT.
ghost use Rattle.std.specs.Prelude.{◌≡◌, ◌<◌, ◌++◌, [], OnOk, All};
ghost use Rattle.spec_plan.specs.Rows.{payloads_of};
ghost use Rattle.spec_words.specs.Heaps as spec;
ghost use Rattle.spec_words.specs.Orders.{in_rising_order};
ghost use Rattle.db_cat.specs.Rows.{row_of};
ghost use Rattle.db_locks.specs.Does.{Does, DoesAs, filled};
ghost use Rattle.db_alloc.specs.Results.{value_as, find_stop};
ghost use Rattle.db_alloc.specs.Tables.{numbers};
ghost use Rattle.db_heap.specs.Selects.{rows_selected, table_selected};

use crate::count::page_room;
use crate::heap::read_heap_page;
use crate::order::sort;
use db_alloc::{FindStop, Table, find_table, pages_of};
use db_locks::{PageStop, PlanPages};
use heap_page::add_payloads;
use pg_base::{Geometry, Page, PageNo};
use spec_log::Values;
use spec_script::Name;
use std::alloc::Global;

// Reads page p, and adds the payloads of its rows of this key.
fn add_page<P: PlanPages>(
    alloc: Global,
    v: &mut P,
    table: &Table,
    p: PageNo,
    key: u64,
    buffer: &mut Page,
    found: &mut Vec<Values<u8>>,
) -> Result<(), PageStop>
    requires geometry { table.now.geometry ≡ (P.state v.old).view.shape.geometry }
    requires pages { table.now.pages ≡ (P.state v.old).view.shape.pages }
    requires inside { p.0 < table.now.pages }
    ensures does { Does (P.state v.old) (P.state v.new) (spec.heap_page (P.state v.old).view.shape (row_of table.now.row) p.0) (filled buffer.new.bytes result) }
    ensures found { OnOk result (found.new.items ≡ found.old.items ++ payloads_of key buffer.new.bytes) }
{
    read_heap_page(v, table, p, buffer)?;
    match add_payloads(alloc, buffer, key, found) {
        Ok(()) => Ok(()),
        Err(_) => Err(PageStop::NoMemory),
    }
}

// The payloads of the rows of this key on these pages of a table, in no order.
fn find_payloads<P: PlanPages>(
    alloc: Global,
    v: &mut P,
    table: &Table,
    pages: &[PageNo],
    key: u64,
    buffer: &mut Page,
) -> Result<Vec<Values<u8>>, PageStop>
    requires geometry { table.now.geometry ≡ (P.state v.old).view.shape.geometry }
    requires pages { table.now.pages ≡ (P.state v.old).view.shape.pages }
    requires inside { All (λ p. p < table.now.pages) (numbers pages.now) }
    ensures { Does (P.state v.old) (P.state v.new) (rows_selected (P.state v.old).view.shape (row_of table.now.row) key (numbers pages.now)) (value_as (λ found. spec.rows_found (in_rising_order found.items)) result) }
{
    let mut found = Vec::new(alloc);
    for p in pages {
        add_page(alloc, v, table, *p, key, buffer, &mut found)?;
    }
    Ok(found)
}

// The payloads of a table's rows of this key, in rising order, with room for a page.
fn select_table<P: PlanPages>(
    alloc: Global,
    v: &mut P,
    table: &Table,
    key: u64,
    buffer: &mut Page,
) -> Result<Values<Values<u8>>, PageStop>
    requires geometry { table.now.geometry ≡ (P.state v.old).view.shape.geometry }
    requires pages { table.now.pages ≡ (P.state v.old).view.shape.pages }
    ensures { Does (P.state v.old) (P.state v.new) (table_selected (P.state v.old).view.shape (row_of table.now.row) key) (value_as (λ payloads. spec.rows_found payloads) result) }
{
    let pages = pages_of(alloc, v, table)?;
    let mut found = find_payloads(alloc, v, table, &pages, key, buffer)?;
    sort(&mut found);
    Ok(Values::from_vec(found))
}

/// SELECT: the payloads of the rows of this key in the table of this name, in rising order. `geometry` and `pages` are
/// those of the view's file.
pub fn heap_select<P: PlanPages>(
    alloc: Global,
    v: &mut P,
    geometry: Geometry,
    pages: u32,
    name: &Name,
    key: u64,
) -> Result<Values<Values<u8>>, FindStop>
    requires geometry { geometry ≡ (P.state v.old).view.shape.geometry }
    requires pages { pages ≡ (P.state v.old).view.shape.pages }
    ensures { DoesAs (find_stop name.now) [] (P.state v.old) (P.state v.new) (spec.select_plan (P.state v.old).view.shape name.now key) (value_as (λ payloads. spec.rows_found payloads) result) }
{
    let mut buffer = page_room(alloc)?;
    let row = find_table(alloc, v, name)?;
    let table = Table {
        row,
        geometry,
        pages,
    };
    Ok(select_table(alloc, v, &table, key, &mut buffer)?)
}
