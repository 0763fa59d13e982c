// Whether the catalog of a file has a clustered table.
ghost use Rattle.std.specs.Prelude.{◌≡◌, IfOk, map};
ghost use Rattle.std.specs.List.{list_any};
ghost use Rattle.spec_file.specs.Kinds.{is_clustered};
ghost use Rattle.db_cat.specs.Rows.{row_of};
ghost use Rattle.spec_start.specs.Files as spec;

use db_cat::{CatRow, CatStop, read_catalog};
use law_rows::row_laws;
use pg_base::{BOOT_TYPE, NoMemory, Page, PageNo, is_page_of};
use std::alloc::Global;

// One of these objects is a clustered table.
fn any_clustered(rows: &[CatRow]) -> bool
    ensures { result ≡ list_any (λ row. is_clustered row.kind) (map row_of rows.now) }
{
    for row in rows {
        if row.kind.is_clustered() {
            return true;
        }
    }
    false
}

/// Whether page 9 passes its tests, and its catalog has a clustered table.
pub(crate) fn has_clustered_table(alloc: Global, boot: &Page) -> Result<bool, NoMemory>
    ensures { IfOk result (λ has. has ≡ spec.has_clustered_table boot.now.bytes) }
{
    row_laws();
    if !is_page_of(boot, BOOT_TYPE, PageNo(9)) {
        return Ok(false);
    }
    match read_catalog(alloc, boot) {
        Ok(rows) => Ok(any_clustered(&rows)),
        Err(CatStop::Bad) => Ok(false),
        Err(CatStop::NoMemory) => Err(NoMemory),
    }
}
