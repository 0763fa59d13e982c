// Page 9 and the table of a name.
ghost use Rattle.std.specs.Prelude.{◌≡◌, [], IfOk, map, bytes_eq, string_bytes};
ghost use Rattle.std.specs.Option.{option_map};
ghost use Rattle.spec_file.specs.CatalogRows.{rows_of};
ghost use Rattle.spec_plan.specs.Reading as spec;
ghost use Rattle.spec_words.specs.Tables.{table_of};
ghost use Rattle.db_cat.specs.Rows.{row_of};
ghost use Rattle.db_locks.specs.States.{PlanState};
ghost use Rattle.db_locks.specs.Does.{Does, DoesAs};
ghost use Rattle.db_alloc.specs.Results.{find_stop, value_as};
ghost use Rattle.db_alloc.specs.Tables.{catalog_rows, named_row};

use crate::buffer::page_room;
use crate::look::look_catalog;
use db_cat::{CatRow, CatStop, read_catalog};
use db_locks::{PageStop, PlanPages, check_free};
use law_rows::row_laws;
use pg_base::{BOOT_TYPE, Page, PageNo, Resource, is_page_of};
use spec_script::Name;
use std::alloc::Global;

/// Why no table is found.
#[derive(Clone, Copy, Debug, PartialEq, Eq)]
pub enum FindStop {
    Page(PageStop),
    /// No table has the name.
    NoTable,
}

impl From<PageStop> for FindStop {
    ghost use Rattle.db_alloc.specs.declared.find.FindStop.TheVariants.{Page};

    ghost from_gives = { λ e stop. stop ≡ Page e };

    fn from(e: PageStop) -> Self {
        FindStop::Page(e)
    }
}

fn has_name(row: &CatRow, name: &str) -> bool
    ensures { result ≡ bytes_eq (string_bytes row.now.name) name.now }
{
    row.name.as_str() == name
}

// The object of this name among these.
fn take_named(mut rows: Vec<CatRow>, name: &str) -> Option<CatRow>
    ensures { option_map row_of result ≡ spec.named_among (map row_of rows.items) name.now }
{
    for i in 0..rows.len() {
        if has_name(&rows[i], name) {
            return Some(rows.swap_remove(i));
        }
    }
    None
}

/// The objects of a page that is to be the catalog.
pub fn read_rows(alloc: Global, boot: &Page) -> Result<Vec<CatRow>, PageStop>
    ensures does { (a : PlanState) → Does a a (catalog_rows boot.now.bytes) (value_as (λ rows. map row_of rows.items) result) }
    ensures rows { IfOk result (λ rows. map row_of rows.items ≡ rows_of boot.now.bytes) }
{
    row_laws();
    if !is_page_of(boot, BOOT_TYPE, PageNo(9)) {
        return Err(PageStop::Bad(PageNo(9)));
    }
    match read_catalog(alloc, boot) {
        Ok(rows) => Ok(rows),
        Err(CatStop::Bad) => Err(PageStop::Bad(PageNo(9))),
        Err(CatStop::NoMemory) => Err(PageStop::NoMemory),
    }
}

// The object of this name, on a page that is to be the catalog.
fn read_named(alloc: Global, boot: &Page, name: &Name) -> Result<CatRow, FindStop>
    ensures { (a : PlanState) → DoesAs (find_stop name.now) [] a a (named_row name.now boot.now.bytes) (value_as row_of result) }
{
    let rows = read_rows(alloc, boot)?;
    match take_named(rows, name.as_str()) {
        Some(row) => Ok(row),
        None => Err(FindStop::NoTable),
    }
}

// The table of this name, with room for a page.
fn find_by<P: PlanPages>(
    alloc: Global,
    v: &mut P,
    name: &Name,
    buffer: &mut Page,
) -> Result<CatRow, FindStop>
    ensures { DoesAs (find_stop name.now) [] (P.state v.old) (P.state v.new) (table_of name.now) (value_as row_of result) }
{
    look_catalog(v, buffer)?;
    let row = read_named(alloc, buffer, name)?;
    check_free(v, PageNo(9), Resource::Table(row.id), buffer)?;
    Ok(row)
}

/// The table of this name.
pub fn find_table<P: PlanPages>(alloc: Global, v: &mut P, name: &Name) -> Result<CatRow, FindStop>
    ensures { DoesAs (find_stop name.now) [] (P.state v.old) (P.state v.new) (table_of name.now) (value_as row_of result) }
{
    let mut buffer = page_room(alloc)?;
    find_by(alloc, v, name, &mut buffer)
}
