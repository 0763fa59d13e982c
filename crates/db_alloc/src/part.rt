// Parts of pages that objects own are written.
ghost use Rattle.std.specs.Prelude.{◌≡◌, ◌<◌, ◌+◌, ◌*◌, ◌%◌, ◌/◌, ◌∷◌, ◌≤◌, [], ℕ, List, length, IsTrue, Contains, OnOk};
ghost use Rattle.byteorder.specs.Endian.{little_bytes};
ghost use Rattle.spec_file.specs.declared.data.Resource.TheVariants as resource;
ghost use Rattle.spec_log.specs.declared.item.Cell.TheVariants.{Bytes};
ghost use Rattle.spec_log.specs.Cells.{with_bytes};
ghost use Rattle.spec_words.specs.Words.{write};
ghost use Rattle.spec_alloc.specs.Chains as spec;
ghost use Rattle.db_locks.specs.Does.{Does, DoesAfter, Stays};
ghost use Rattle.db_alloc.specs.Maps.{IsOwnable};

use crate::look::look_page;
use db_locks::{PageStop, PlanPages, put_page};
use pg_base::{Page, PageNo, is_whole, put_u32};

// Four bytes of a page become those of a number.
fn edit_number(page: &mut Page, at: usize, value: u32)
    requires { at + 4 ≤ 8192 }
    ensures { page.new.bytes ≡ with_bytes page.old.bytes at (little_bytes 4 value) }
{
    is_whole(page);
    put_u32(page, at, value);
    is_whole(page);
}

/// Four bytes of page q, which the statement has reached, become those of a number.
pub(crate) fn put_number<P: PlanPages>(
    v: &mut P,
    q: PageNo,
    at: usize,
    value: u32,
    buffer: &mut Page,
) -> Result<(), PageStop>
    requires ownable { IsOwnable (P.state v.old).view.shape q.0 }
    requires fits { at + 4 ≤ 8192 }
    ensures { (looked : List ℕ) → (IsTrue (P.state v.old).told → Contains looked q.0) → DoesAfter looked (P.state v.old) (P.state v.new) (spec.put_iam q.0 at (little_bytes 4 value)) result }
{
    look_page(v, q, buffer)?;
    edit_number(buffer, at, value);
    put_page(v, q, buffer)
}
