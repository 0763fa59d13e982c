// The pages of a heap.
ghost use Rattle.std.specs.Prelude.{◌≡◌, ◌<◌, true, OnOk};
ghost use Rattle.spec_file.specs.Roles as roles;
ghost use Rattle.spec_rows.specs.Slots.{slot_count};
ghost use Rattle.spec_plan.specs.Rows.{passes_page};
ghost use Rattle.spec_words.specs.Heaps as spec;
ghost use Rattle.db_cat.specs.Rows.{row_of};
ghost use Rattle.db_locks.specs.Does.{Does, filled};

use db_alloc::Table;
use db_locks::{PageStop, PlanPages, look_page};
use heap_page::is_heap_page;
use pg_base::{Page, PageNo, Resource, read_header};
use pg_geom::is_ordinary;

/// Reads page p as one of the table's: 1222, then 824.
pub(crate) fn read_heap_page<P: PlanPages>(
    v: &mut P,
    table: &Table,
    p: PageNo,
    into: &mut Page,
) -> Result<(), PageStop>
    requires geometry { table.now.geometry ≡ (P.state v.old).view.shape.geometry }
    requires pages { table.now.pages ≡ (P.state v.old).view.shape.pages }
    requires inside { p.0 < table.now.pages }
    ensures does { Does (P.state v.old) (P.state v.new) (spec.heap_page (P.state v.old).view.shape (row_of table.now.row) p.0) (filled into.new.bytes result) }
    ensures ordinary { OnOk result (roles.is_ordinary (P.state v.old).view.shape.geometry p.0 ≡ true) }
    ensures heap { OnOk result (passes_page p.0 (row_of table.now.row).id into.new.bytes ≡ true) }
    ensures view { (P.state v.new).view ≡ (P.state v.old).view }
{
    if !is_ordinary(table.geometry, p) {
        v.look(p, Resource::Page(p), into)?;
        return Err(PageStop::Bad(p));
    }
    look_page(v, p, into)?;
    if !is_heap_page(into, p, table.row.id) {
        return Err(PageStop::Bad(p));
    }
    Ok(())
}

/// How many rows a page has.
pub(crate) fn row_count(page: &Page) -> u16
    ensures { result ≡ slot_count page.now.bytes }
{
    read_header(page).slots
}
