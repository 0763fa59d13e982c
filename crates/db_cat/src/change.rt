// Entries that are put and emptied.
ghost use Rattle.std.specs.Prelude.{◌≡◌, ◌≢◌, ◌<◌, ◌≤◌, ◌+◌, ◌*◌, ℕ, IsTrue, is_ok, is_some, filter, length, not, ◌==◌, replicate, string_bytes};
ghost use Rattle.spec_file.specs.Catalog.{PassesCatalog, IsUsed, is_row, is_zeros, entry_at, entry_id, entry_name, entry_count};
ghost use Rattle.spec_file.specs.CatalogBytes.{entry_bytes, with_entry};
ghost use Rattle.spec_file.specs.CatalogRows.{rows_of};
ghost use Rattle.db_cat.specs.Changes as spec;
ghost use Rattle.db_cat.specs.Rows.{row_of};

use crate::CatRow;
use crate::bytes::{ENTRY_SIZE, bytes_of};
use crate::free::{entry_of, free_entry};
use pg_base::{MAPS_START, ObjId, Page};
use spec_file::ENTRY_COUNT;

/// No entry of the catalog is empty.
#[derive(Clone, Copy, Debug, PartialEq, Eq)]
pub struct CatFull;

// Puts 40 bytes into entry i.
fn put_entry(page: &mut Page, i: usize, entry: &[u8])
    requires within { i < ENTRY_COUNT }
    requires size { length entry.now ≡ ENTRY_SIZE }
    ensures bytes { page.new.bytes ≡ with_entry i entry.now page.old.bytes }
    ensures inside { 136 + 40 * i ≤ length page.old.bytes }
{
    let at = MAPS_START + 40 * i;
    page.bytes[at..at + ENTRY_SIZE].copy_from_slice(entry);
}

/// Makes entry i that of an object, whose name fits there.
pub fn put_row(page: &mut Page, i: usize, row: &CatRow)
    requires within { i < ENTRY_COUNT }
    requires name { length (string_bytes row.now.name) ≤ 18 }
    ensures { page.new.bytes ≡ with_entry i (entry_bytes (row_of row.now)) page.old.bytes }
{
    put_entry(page, i, &bytes_of(row));
}

/// Empties entry i.
pub fn empty_entry(page: &mut Page, i: usize)
    requires { i < ENTRY_COUNT }
    ensures { page.new.bytes ≡ with_entry i (replicate 40 0) page.old.bytes }
{
    put_entry(page, i, &[0; ENTRY_SIZE]);
}

/// Puts a new object, as `may_enter` tests it, into the lowest empty entry. Where no entry is empty nothing
/// changes.
pub fn add(page: &mut Page, row: &CatRow) -> Result<(), CatFull>
    requires { spec.MayEnter page.old.bytes (row_of row.now) }
    ensures full { is_ok result ≡ is_some (spec.free_entry page.old.bytes) }
    ensures bytes { page.new.bytes ≡ spec.with_bytes (spec.free_entry page.old.bytes) (entry_bytes (row_of row.now)) page.old.bytes }
    ensures passes { PassesCatalog page.new.bytes }
    ensures rows { rows_of page.new.bytes ≡ spec.with_row (spec.free_entry page.old.bytes) (row_of row.now) (rows_of page.old.bytes) }
{
    match free_entry(page) {
        Some(i) => {
            put_entry(page, i, &bytes_of(row));
            Ok(())
        }
        None => Err(CatFull),
    }
}

/// Empties the entry of the object with this id. Where none has it nothing changes.
pub fn remove(page: &mut Page, id: ObjId) -> bool
    requires { PassesCatalog page.old.bytes }
    ensures found { result ≡ is_some (spec.entry_of page.old.bytes id.0) }
    ensures bytes { page.new.bytes ≡ spec.with_bytes (spec.entry_of page.old.bytes id.0) (replicate 40 0) page.old.bytes }
    ensures passes { PassesCatalog page.new.bytes }
    ensures rows { rows_of page.new.bytes ≡ filter (λ row. not (row.id == id.0)) (rows_of page.old.bytes) }
{
    match entry_of(page, id) {
        Some(i) => {
            put_entry(page, i, &[0; ENTRY_SIZE]);
            true
        }
        None => false,
    }
}
