// IAM pages of a table's chain, as they were read.
ghost use Rattle.std.specs.Prelude.{◌≡◌, ◌<◌, nat_lt, is_none, map};
ghost use Rattle.std.specs.List.{list_all};
ghost use Rattle.spec_file.specs.Iam as spec;
ghost use Rattle.spec_chain.specs.Chains as chains;
ghost use Rattle.db_alloc.specs.Tables.{numbers};

use crate::Table;
use arrayvec::ArrayVec;
use pg_base::{Page, PageNo, u32_at};
use pg_iam::test_iam;

/// Whether page p is an IAM page of the table.
pub(crate) fn is_iam_of(table: &Table, p: PageNo, page: &Page) -> bool
    ensures { result ≡ is_none (chains.fault_of_bytes table.now.geometry table.now.pages table.now.row.id.0 p.0 page.now.bytes) }
{
    match test_iam(page, p, table.geometry, table.pages) {
        Some(iam) => iam.object.0 == table.row.id.0,
        None => false,
    }
}

// The page in single-page slot i.
fn slot(iam: &Page, i: usize) -> PageNo
    requires { i < 8 }
    ensures { result.0 ≡ spec.iam_slot iam.now.bytes i }
{
    PageNo(u32_at(&iam.bytes, 104 + 4 * i))
}

/// The pages in the eight single-page slots; 0 stands for none.
pub(crate) fn slots_of(iam: &Page) -> ArrayVec<PageNo, 8>
    ensures { numbers result.items ≡ spec.iam_slots iam.now.bytes }
{
    ArrayVec::from([
        slot(iam, 0),
        slot(iam, 1),
        slot(iam, 2),
        slot(iam, 3),
        slot(iam, 4),
        slot(iam, 5),
        slot(iam, 6),
        slot(iam, 7),
    ])
}

/// Whether each of these is 0 or a page of a file that has so many.
pub(crate) fn are_inside(pages: u32, slots: &[PageNo]) -> bool
    ensures { result ≡ list_all (λ q. nat_lt q pages) (numbers slots.now) }
{
    for q in slots {
        if q.0 >= pages {
            return false;
        }
    }
    true
}
