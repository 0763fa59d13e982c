ghost use Rattle.std.specs.Prelude.{◌≡◌, ◌+◌, ◌≤◌, IsTrue, length, take};
ghost use Rattle.spec_rows.specs.Rows.{is_data_row};
ghost use Rattle.spec_plan.specs.Rows as spec;
ghost use Rattle.heap_page.specs.Pages.{IsHeapPage, KeepsTest};

use pg_base::{Kind, ObjId, Page, PageNo, is_whole, read_header};
use pg_row::{Row, write_row};
use pg_slots::{insert_at, test_page};
use spec_file::{PAYLOAD_LIMIT, ROW_LIMIT};
use spec_rows::DATA_HEAD;

/// Whether page p passes the page test as a heap page of the object.
pub fn is_heap_page(page: &Page, p: PageNo, object: ObjId) -> bool
    ensures { result ≡ spec.passes_page p.0 object.0 page.now.bytes }
{
    test_page(page, p, object, Kind::Heap).is_ok()
}

/// Whether a row of so many bytes and its slot have room.
pub fn has_room(page: &Page, size: u16) -> bool
    ensures { result ≡ spec.has_room_for page.now.bytes size }
{
    size as u32 + 2 <= read_header(page).free_count as u32
}

/// Puts a row behind the last one of a heap page, which then passes its test as before.
pub fn put_row(page: &mut Page, row: &[u8])
    requires heap { IsHeapPage page.old.bytes }
    requires room { IsTrue (spec.has_room_for page.old.bytes (length row.now)) }
    requires row { IsTrue (is_data_row row.now) }
    ensures row { page.new.bytes ≡ spec.with_row page.old.bytes row.now }
    ensures test { KeepsTest page.old.bytes page.new.bytes }
{
    is_whole(page);
    let last = read_header(page).slots;
    let _put = insert_at(page, Kind::Heap, last, row);
    is_whole(page);
}

/// The bytes of a heap's row, and how many they are.
pub fn heap_row(key: u64, payload: &[u8], into: &mut [u8; ROW_LIMIT]) -> u16
    requires { length payload.now ≤ PAYLOAD_LIMIT }
    ensures bytes { take result into.new ≡ spec.heap_row key payload.now }
    ensures length { result ≡ DATA_HEAD + length payload.now }
    ensures row { IsTrue (is_data_row (take result into.new)) }
{
    write_row(&Row::Leaf { key, payload }, into)
}
