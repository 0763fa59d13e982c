// Entries of the catalog are written on the view of a statement.
ghost use Rattle.std.specs.Prelude.{◌≡◌, ◌<◌, ◌≤◌, ◌+◌, ◌*◌, ℕ, List, IsTrue, Contains, replicate, length, string_bytes};
ghost use Rattle.spec_file.specs.CatalogBytes.{entry_bytes};
ghost use Rattle.spec_log.specs.Cells.{with_bytes};
ghost use Rattle.spec_alloc.specs.Objects as objects;
ghost use Rattle.spec_statements.specs.Objects as spec;
ghost use Rattle.db_cat.specs.Rows.{row_of};
ghost use Rattle.db_locks.specs.Does.{DoesAfter};

use db_cat::CatRow;
use db_locks::{PageStop, PlanPages, look_catalog, put_catalog};
use pg_base::{Page, is_whole};
use spec_file::ENTRY_COUNT;

// Entry i of a page becomes that of an object.
fn fill(page: &mut Page, i: usize, row: &CatRow)
    requires within { i < ENTRY_COUNT }
    requires name { length (string_bytes row.now.name) ≤ 16 }
    ensures { page.new.bytes ≡ with_bytes page.old.bytes (96 + 40 * i) (entry_bytes (row_of row.now)) }
{
    is_whole(page);
    db_cat::put_row(page, i, row);
}

// Entry i of a page becomes empty.
fn clear(page: &mut Page, i: usize)
    requires { i < ENTRY_COUNT }
    ensures { page.new.bytes ≡ with_bytes page.old.bytes (96 + 40 * i) (replicate 40 0) }
{
    is_whole(page);
    db_cat::empty_entry(page, i);
}

/// Entry i becomes that of an object. Page 9, which the statement has reached, is read once more, and put.
pub(crate) fn put_row<P: PlanPages>(
    v: &mut P,
    i: usize,
    row: &CatRow,
    buffer: &mut Page,
) -> Result<(), PageStop>
    requires within { i < ENTRY_COUNT }
    requires name { length (string_bytes row.now.name) ≤ 16 }
    ensures { (looked : List ℕ) → (IsTrue (P.state v.old).told → Contains looked 9) → DoesAfter looked (P.state v.old) (P.state v.new) (spec.entry_put i (row_of row.now)) result }
{
    look_catalog(v, buffer)?;
    fill(buffer, i, row);
    put_catalog(v, buffer)
}

/// Entry i becomes empty, as `put_row` makes it an object's.
pub(crate) fn empty_entry<P: PlanPages>(
    v: &mut P,
    i: usize,
    buffer: &mut Page,
) -> Result<(), PageStop>
    requires within { i < ENTRY_COUNT }
    ensures { (looked : List ℕ) → (IsTrue (P.state v.old).told → Contains looked 9) → DoesAfter looked (P.state v.old) (P.state v.new) (objects.entry_emptied i) result }
{
    look_catalog(v, buffer)?;
    clear(buffer, i);
    put_catalog(v, buffer)
}
