ghost use Rattle.std.specs.Prelude.{◌≡◌, ◌<◌, ◌==◌, ◌||◌, ◌↔◌, IsTrue, length, bytes_eq};
ghost use Rattle.spec_file.specs.Catalog as spec;
ghost use Rattle.db_cat.specs.Entries.{IsGoodEntry, IsNew};

use crate::entry::{entry_at, is_row, is_zeros, name_of};
use pg_base::{Page, u32_at};
use spec_file::ENTRY_COUNT;

/// Whether each entry of page 9 is empty or a row, and no id or name occurs twice.
pub fn catalog_passes(page: &Page) -> bool
    ensures { IsTrue result ↔ spec.PassesCatalog page.now.bytes }
{
    for i in 0..ENTRY_COUNT {
        if !is_good_entry(page, i) {
            return false;
        }
    }
    true
}

// Entry i is empty, or a row whose id and name no earlier entry has.
fn is_good_entry(page: &Page, i: usize) -> bool
    requires { i < ENTRY_COUNT }
    ensures { IsTrue result ↔ IsGoodEntry page.now.bytes i }
{
    let entry = entry_at(page, i);
    is_zeros(entry) || (is_row(entry) && is_new(page, i))
}

// No earlier entry has the id or the name of entry i.
fn is_new(page: &Page, i: usize) -> bool
    requires { i < ENTRY_COUNT }
    ensures { IsTrue result ↔ IsNew page.now.bytes i }
{
    let entry = entry_at(page, i);
    for j in 0..i {
        let earlier = entry_at(page, j);
        if !is_zeros(earlier) && are_alike(entry, earlier) {
            return false;
        }
    }
    true
}

// Two entries have the same id or the same name.
fn are_alike(a: &[u8], b: &[u8]) -> bool
    requires a { length a.now ≡ 40 }
    requires b { length b.now ≡ 40 }
    ensures { result ≡ ((spec.entry_id a.now == spec.entry_id b.now)
        || bytes_eq (spec.entry_name a.now) (spec.entry_name b.now)) }
{
    u32_at(a, 0) == u32_at(b, 0) || name_of(a) == name_of(b)
}
