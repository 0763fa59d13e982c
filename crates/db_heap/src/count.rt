// COUNT.
ghost use Rattle.std.specs.Prelude.{◌≡◌, ◌<◌, ◌≤◌, [], IfErr, length, All};
ghost use Rattle.db_alloc.specs.declared.find.FindStop.TheVariants as find;
ghost use Rattle.db_locks.specs.declared.plan_pages.PageStop.TheVariants as stop;
ghost use Rattle.spec_script.specs.declared.reply.Reply.TheVariants as reply;
ghost use Rattle.spec_words.specs.Heaps as spec;
ghost use Rattle.db_cat.specs.Rows.{row_of};
ghost use Rattle.db_locks.specs.Does.{Does, DoesAs};
ghost use Rattle.db_alloc.specs.Results.{value_as, find_stop};
ghost use Rattle.db_alloc.specs.Tables.{numbers};
ghost use Rattle.db_heap.specs.Counts.{rows_counted, table_counted};

use crate::heap::{read_heap_page, row_count};
use db_alloc::{FindStop, Table, find_table, pages_of};
use db_locks::{PageStop, PlanPages};
use pg_base::{Geometry, Page, PageNo};
use spec_script::Name;
use std::alloc::Global;

// How many rows these pages of a table have.
fn count_rows<P: PlanPages>(
    v: &mut P,
    table: &Table,
    pages: &[PageNo],
    buffer: &mut Page,
) -> Result<u64, PageStop>
    requires geometry { table.now.geometry ≡ (P.state v.old).view.shape.geometry }
    requires pages { table.now.pages ≡ (P.state v.old).view.shape.pages }
    requires inside { All (λ p. p < table.now.pages) (numbers pages.now) }
    requires few { length pages.now ≤ 4294967295 }
    ensures { Does (P.state v.old) (P.state v.new) (rows_counted (P.state v.old).view.shape (row_of table.now.row) (numbers pages.now)) (value_as (λ rows. reply.Rows rows []) result) }
{
    let mut sum: u64 = 0;
    for p in pages {
        read_heap_page(v, table, *p, buffer)?;
        sum += row_count(buffer) as u64;
    }
    Ok(sum)
}

// The rows of a table, with room for a page.
fn count_table<P: PlanPages>(
    alloc: Global,
    v: &mut P,
    table: &Table,
    buffer: &mut Page,
) -> Result<u64, PageStop>
    requires geometry { table.now.geometry ≡ (P.state v.old).view.shape.geometry }
    requires pages { table.now.pages ≡ (P.state v.old).view.shape.pages }
    ensures { Does (P.state v.old) (P.state v.new) (table_counted (P.state v.old).view.shape (row_of table.now.row)) (value_as (λ rows. reply.Rows rows []) result) }
{
    let pages = pages_of(alloc, v, table)?;
    count_rows(v, table, &pages, buffer)
}

pub(crate) fn page_room(alloc: Global) -> Result<Box<Page>, FindStop>
    ensures { IfErr result (λ e. e ≡ find.Page stop.NoMemory) }
{
    match Page::zeroed(alloc) {
        Ok(page) => Ok(page),
        Err(_) => Err(FindStop::Page(PageStop::NoMemory)),
    }
}

/// COUNT: how many rows the table of this name has. `geometry` and `pages` are those of the view's file.
pub fn heap_count<P: PlanPages>(
    alloc: Global,
    v: &mut P,
    geometry: Geometry,
    pages: u32,
    name: &Name,
) -> Result<u64, FindStop>
    requires geometry { geometry ≡ (P.state v.old).view.shape.geometry }
    requires pages { pages ≡ (P.state v.old).view.shape.pages }
    ensures { DoesAs (find_stop name.now) [] (P.state v.old) (P.state v.new) (spec.count_plan (P.state v.old).view.shape name.now) (value_as (λ rows. reply.Rows rows []) result) }
{
    let mut buffer = page_room(alloc)?;
    let row = find_table(alloc, v, name)?;
    let table = Table {
        row,
        geometry,
        pages,
    };
    Ok(count_table(alloc, v, &table, &mut buffer)?)
}
