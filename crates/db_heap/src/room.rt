// The first page of a heap with room for a row.
ghost use Rattle.std.specs.Prelude.{◌≡◌, ◌<◌, ◌==◌, ◌%◌, ◌&&◌, ℕ, List, IsTrue, IfOk, IfSome, All, Some, None, if◌then◌else◌};
ghost use Rattle.std.specs.Option.{option_map};
ghost use Rattle.spec_file.specs.Roles as roles;
ghost use Rattle.spec_chain.specs.Uses.{pfs_byte};
ghost use Rattle.spec_words.specs.Words.{sees, first_of};
ghost use Rattle.spec_words.specs.Heaps as spec;
ghost use Rattle.db_cat.specs.Rows.{row_of};
ghost use Rattle.db_locks.specs.Does.{DoesAfter, Stays};
ghost use Rattle.db_alloc.specs.Results.{value_as};
ghost use Rattle.db_alloc.specs.Tables.{numbers};
ghost use Rattle.db_heap.specs.Inserts.{WasByteRead, HasRoomOn};

use crate::heap::read_heap_page;
use db_alloc::Table;
use db_locks::{PageStop, PlanPages, read_pfs_byte};
use heap_page::has_room;
use pg_base::{Page, PageNo};
use pg_geom::is_ordinary;

// Whether the PFS byte of page p says that the page is full. It was read, and its page is read into `buffer` once more.
fn is_full<P: PlanPages>(
    v: &mut P,
    table: &Table,
    p: PageNo,
    buffer: &mut Page,
) -> Result<bool, PageStop>
    requires geometry { table.now.geometry ≡ (P.state v.old).view.shape.geometry }
    requires pages { table.now.pages ≡ (P.state v.old).view.shape.pages }
    requires inside { p.0 < table.now.pages }
    ensures does { (looked : List ℕ) → (IsTrue (P.state v.old).told → WasByteRead looked (P.state v.old).view p.0) → DoesAfter looked (P.state v.old) (P.state v.new) (sees (λ view. roles.is_ordinary (P.state v.old).view.shape.geometry p.0 && (pfs_byte (P.state v.old).view.shape.geometry view.now p.0 % 8 == 4))) result }
    ensures view { (P.state v.new).view ≡ (P.state v.old).view }
    ensures stays { Stays (P.state v.old) (P.state v.new) }
{
    if !is_ordinary(table.geometry, p) {
        return Ok(false);
    }
    let byte = read_pfs_byte(v, table.geometry, p, buffer)?;
    Ok(byte % 8 == 4)
}

/// Whether page p, unless it is full by its PFS byte, has room for a row of so many bytes. A page with room
/// is left in `page`.
pub(crate) fn read_room<P: PlanPages>(
    v: &mut P,
    table: &Table,
    size: u16,
    p: PageNo,
    page: &mut Page,
) -> Result<bool, PageStop>
    requires geometry { table.now.geometry ≡ (P.state v.old).view.shape.geometry }
    requires pages { table.now.pages ≡ (P.state v.old).view.shape.pages }
    requires inside { p.0 < table.now.pages }
    ensures does { (looked : List ℕ) → (IsTrue (P.state v.old).told → WasByteRead looked (P.state v.old).view p.0) → DoesAfter looked (P.state v.old) (P.state v.new) (spec.room_on (P.state v.old).view.shape (row_of table.now.row) size p.0) (value_as (λ yes. if yes then Some p.0 else None) result) }
    ensures room { IfOk result (λ yes. IsTrue yes → HasRoomOn (P.state v.old) (row_of table.now.row) size p.0 page.new.bytes) }
    ensures view { (P.state v.new).view ≡ (P.state v.old).view }
    ensures stays { Stays (P.state v.old) (P.state v.new) }
{
    if is_full(v, table, p, page)? {
        return Ok(false);
    }
    read_heap_page(v, table, p, page)?;
    Ok(has_room(page, size))
}

/// The first of these pages of a table with room for a row of so many bytes, which is left in `page`.
pub(crate) fn find_room<P: PlanPages>(
    v: &mut P,
    table: &Table,
    size: u16,
    pages: &[PageNo],
    page: &mut Page,
) -> Result<Option<PageNo>, PageStop>
    requires geometry { table.now.geometry ≡ (P.state v.old).view.shape.geometry }
    requires pages { table.now.pages ≡ (P.state v.old).view.shape.pages }
    requires inside { All (λ p. p < table.now.pages) (numbers pages.now) }
    ensures does { (looked : List ℕ) → (IsTrue (P.state v.old).told → All (WasByteRead looked (P.state v.old).view) (numbers pages.now)) → DoesAfter looked (P.state v.old) (P.state v.new) (first_of (spec.room_on (P.state v.old).view.shape (row_of table.now.row) size) (numbers pages.now)) (value_as (option_map (λ p. p.0)) result) }
    ensures room { IfOk result (λ found. IfSome found (λ p. HasRoomOn (P.state v.old) (row_of table.now.row) size p.0 page.new.bytes)) }
    ensures view { (P.state v.new).view ≡ (P.state v.old).view }
    ensures stays { Stays (P.state v.old) (P.state v.new) }
{
    for p in pages {
        if read_room(v, table, size, *p, page)? {
            return Ok(Some(*p));
        }
    }
    Ok(None)
}
