// Whether an object may get an entry.
ghost use Rattle.std.specs.Prelude.{◌≡◌, ◌↔◌, ◌<◌, ◌==◌, ◌||◌, IsTrue, bytes_eq, length, string_bytes};
ghost use Rattle.spec_file.specs.Catalog as catalog;
ghost use Rattle.spec_file.specs.CatalogBytes.{entry_bytes};
ghost use Rattle.db_cat.specs.Changes as spec;
ghost use Rattle.db_cat.specs.Rows.{row_of};

use crate::CatRow;
use crate::bytes::bytes_of;
use crate::entry::{entry_at, is_row, is_zeros, name_of};
use crate::passes::catalog_passes;
use pg_base::{Page, u32_at};
use spec_file::ENTRY_COUNT;

// The bytes of the object's entry are those of a row.
fn has_form(row: &CatRow) -> bool
    ensures { result ≡ catalog.is_row (entry_bytes (row_of row.now)) }
{
    row.name.as_str().len() <= 18 && is_row(&bytes_of(row))
}

// An entry has the id or the name of the object.
fn is_alike(entry: &[u8], row: &CatRow) -> bool
    requires { length entry.now ≡ 40 }
    ensures { result ≡ ((catalog.entry_id entry.now == row.now.id.0) || bytes_eq (catalog.entry_name entry.now) (string_bytes row.now.name)) }
{
    u32_at(entry, 0) == row.id.0 || name_of(entry) == row.name.as_str().as_bytes()
}

// No entry has the id or the name of the object.
fn is_new_row(page: &Page, row: &CatRow) -> bool
    ensures { IsTrue result ↔ spec.IsNewRow page.now.bytes (row_of row.now) }
{
    for i in 0..ENTRY_COUNT {
        let entry = entry_at(page, i);
        if !is_zeros(entry) && is_alike(entry, row) {
            return false;
        }
    }
    true
}

/// Whether an object may get an entry: the catalog passes its test, the object has the form of a row, and no
/// entry has its id or its name.
pub fn may_enter(page: &Page, row: &CatRow) -> bool
    ensures { IsTrue result ↔ spec.MayEnter page.now.bytes (row_of row.now) }
{
    catalog_passes(page) && has_form(row) && is_new_row(page, row)
}
