// Which entries and ids of the catalog are free, and which entry an id has.
ghost use Rattle.std.specs.Prelude.{◌≡◌, ◌<◌, ◌≤◌, ◌==◌, Some, map, length, slice_get};
ghost use Rattle.std.specs.List.{list_any};
ghost use Rattle.spec_file.specs.Catalog as catalog;
ghost use Rattle.db_cat.specs.Changes as spec;
ghost use Rattle.db_cat.specs.Rows.{row_of};

use crate::CatRow;
use crate::entry::{entry_at, is_zeros};
use pg_base::{ObjId, Page, u32_at};
use spec_file::ENTRY_COUNT;

/// The lowest empty entry.
pub fn free_entry(page: &Page) -> Option<usize>
    ensures { result ≡ spec.free_entry page.now.bytes }
{
    for i in 0..ENTRY_COUNT {
        if is_zeros(entry_at(page, i)) {
            return Some(i);
        }
    }
    None
}

// Entry i is that of the object with this id.
fn has_id(page: &Page, i: usize, id: ObjId) -> bool
    requires { i < ENTRY_COUNT }
    ensures { result ≡ spec.is_of id.0 (catalog.entry_at page.now.bytes i) }
{
    let entry = entry_at(page, i);
    !is_zeros(entry) && u32_at(entry, 0) == id.0
}

/// The lowest entry of the object with this id.
pub fn entry_of(page: &Page, id: ObjId) -> Option<usize>
    ensures { result ≡ spec.entry_of page.now.bytes id.0 }
{
    for i in 0..ENTRY_COUNT {
        if has_id(page, i, id) {
            return Some(i);
        }
    }
    None
}

// One of these objects has the id.
fn is_taken(rows: &[CatRow], id: u32) -> bool
    ensures { result ≡ list_any (λ row. row.id == id) (map row_of rows.now) }
{
    for row in rows {
        if row.id.0 == id {
            return true;
        }
    }
    false
}

/// The smallest id, from 1, that none of a catalog's objects has.
pub fn free_id(rows: &[CatRow]) -> ObjId
    requires { length rows.now ≤ ENTRY_COUNT }
    ensures { Some result.0 ≡ slice_get (spec.free_ids (map row_of rows.now)) 0 }
{
    for id in 1..rows.len() as u32 + 2 {
        if !is_taken(rows, id) {
            return ObjId(id);
        }
    }
    unreachable!()
}
