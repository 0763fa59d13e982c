// A row goes on a page of a heap.
ghost use Rattle.std.specs.Prelude.{◌≡◌, ◌+◌, ◌-◌, ◌≤◌, ℕ, List, IsTrue, Contains, length};
ghost use Rattle.spec_file.specs.Pfs as pfs;
ghost use Rattle.spec_rows.specs.Rows.{is_data_row};
ghost use Rattle.spec_plan.specs.Rows.{free_count, has_room_for, with_fullness};
ghost use Rattle.spec_words.specs.Heaps as spec;
ghost use Rattle.heap_page.specs.Pages.{IsHeapPage};
ghost use Rattle.db_cat.specs.Rows.{row_of};
ghost use Rattle.db_locks.specs.Does.{DoesAfter};
ghost use Rattle.db_heap.specs.Inserts.{WasByteRead, HasRoomOn};

use db_alloc::Table;
use db_locks::{PageStop, PlanPages, put_page, read_pfs_byte, set_pfs_byte};
use heap_page::put_row;
use pg_base::{Page, PageNo, read_header};
use pg_pfs::fullness_of;
use spec_file::{ROOM, ROW_LIMIT};

// A PFS byte with the fullness of a page with so many free bytes.
fn byte_with(before: u8, free: u16) -> u8
    requires { free ≤ ROOM }
    ensures { result ≡ with_fullness before (pfs.fullness_of free) }
{
    before - before % 8 + fullness_of(free)
}

// How many bytes of a page neither rows nor slots use.
fn free_bytes(page: &Page) -> u16
    ensures { result ≡ free_count page.now.bytes }
{
    read_header(page).free_count
}

// The PFS byte of a page once it has a row of so many bytes more.
fn byte_after(before: u8, page: &Page, size: u16) -> u8
    requires heap { IsHeapPage page.now.bytes }
    requires room { IsTrue (has_room_for page.now.bytes size) }
    ensures { result ≡ with_fullness before (pfs.fullness_of (free_count page.now.bytes - (size + 2))) }
{
    byte_with(before, free_bytes(page) - (size + 2))
}

/// Puts a row behind the last of page p, which is in `page`, and into the PFS byte how full the page then is.
pub(crate) fn write_row<P: PlanPages>(
    v: &mut P,
    table: &Table,
    p: PageNo,
    row: &[u8],
    page: &mut Page,
    buffer: &mut Page,
) -> Result<(), PageStop>
    requires geometry { table.now.geometry ≡ (P.state v.old).view.shape.geometry }
    requires room { HasRoomOn (P.state v.old) (row_of table.now.row) (length row.now) p.0 page.old.bytes }
    requires small { length row.now ≤ ROW_LIMIT }
    requires row { IsTrue (is_data_row row.now) }
    ensures { (looked : List ℕ) → (IsTrue (P.state v.old).told → WasByteRead looked (P.state v.old).view p.0) → (IsTrue (P.state v.old).told → Contains looked p.0) → DoesAfter looked (P.state v.old) (P.state v.new) (spec.row_put (P.state v.old).view.shape p.0 row.now) result }
{
    let before = read_pfs_byte(v, table.geometry, p, buffer)?;
    let after = byte_after(before, page, row.len() as u16);
    set_pfs_byte(v, table.geometry, p, after, buffer)?;
    put_row(page, row);
    put_page(v, p, page)
}
