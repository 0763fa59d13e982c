// The objects of a catalog by id.
ghost use Rattle.std.specs.Prelude.{◌↔◌, ◌≤◌, IfOk, Contains, vec_len};
ghost use Rattle.std.specs.List.Sorted.{IsStrictlySortedBy, IsNonDecreasingBy, IsPermutation};
ghost use Rattle.std.specs.Ordering.{nat_cmp, on};
ghost use Rattle.spec_file.specs.declared.sizes.TheConstants.{ENTRY_COUNT};
ghost use Rattle.spec_file.specs.Catalog.{PassesCatalog};
ghost use Rattle.spec_file.specs.CatalogRows.{CatalogRow, rows_of};
ghost use Rattle.ck_facts.specs.Maps.{rows_of_objects};

use db_cat::{CatRow, CatStop, read_catalog};
use pg_base::{NoMemory, Page};
use std::alloc::Global;

fn by_id(rows: Vec<CatRow>) -> Vec<CatRow>
    ensures rises { IsNonDecreasingBy (λ r. r.id.0) result.items }
    ensures same { IsPermutation rows.items result.items }
{
    let mut rows = rows;
    rows.sort_unstable_by_key(|r| r.id.0);
    rows
}

/// The objects of a catalog that passes its test, by id.
pub fn objects_of(alloc: Global, boot: &Page) -> Result<Vec<CatRow>, NoMemory>
    requires { (PassesCatalog boot.now.bytes → ⊥) → ⊥ }
    ensures sorted { IfOk result (λ objects. IsStrictlySortedBy (on (λ r. r.id) nat_cmp) (rows_of_objects objects.items)) }
    ensures same { IfOk result (λ objects. (r : CatalogRow) → Contains (rows_of_objects objects.items) r ↔ Contains (rows_of boot.now.bytes) r) }
    ensures few { IfOk result (λ objects. vec_len objects ≤ ENTRY_COUNT) }
{
    match read_catalog(alloc, boot) {
        Ok(rows) => Ok(by_id(rows)),
        Err(CatStop::Bad) => unreachable!(),
        Err(CatStop::NoMemory) => Err(NoMemory),
    }
}
