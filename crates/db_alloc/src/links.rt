// What the pages of a chain say of an object is written: its single-page slots, and the extents that it marks.
ghost use Rattle.std.specs.Prelude.{◌≡◌, ◌<◌, ◌+◌, ◌*◌, ◌%◌, ◌/◌, ◌∷◌, ◌≤◌, [], ℕ, List, length, IsTrue, Contains, slice_index};
ghost use Rattle.spec_file.specs.declared.sizes.TheConstants.{BIT_COUNT};
ghost use Rattle.spec_log.specs.Cells.{with_bit, with_bytes};
ghost use Rattle.spec_plan.specs.Reading.{first_page};
ghost use Rattle.spec_alloc.specs.Chains as spec;
ghost use Rattle.db_locks.specs.Does.{DoesAfter};
ghost use Rattle.db_alloc.specs.Maps.{IsOwnable};
ghost use Rattle.db_alloc.specs.Tables.{numbers};

use crate::look::look_page;
use crate::part::put_number;
use db_locks::{PageStop, PlanPages, put_page};
use pg_base::{ExtentNo, Geometry, Page, PageNo, is_whole};
use pg_geom::interval_size;
use spec_log::byte_with_bit;

/// Page p, or none for 0, comes into single-page slot i of a chain, whose first page the statement has reached.
pub(crate) fn put_slot<P: PlanPages>(
    v: &mut P,
    chain: &[PageNo],
    p: PageNo,
    i: usize,
    buffer: &mut Page,
) -> Result<(), PageStop>
    requires some { 1 ≤ length chain.now }
    requires ownable { IsOwnable (P.state v.old).view.shape (first_page (numbers chain.now)) }
    requires slot { i < 8 }
    ensures { (looked : List ℕ) → (IsTrue (P.state v.old).told → Contains looked (first_page (numbers chain.now))) → DoesAfter looked (P.state v.old) (P.state v.new) (spec.put_slot (numbers chain.now) p.0 i) result }
{
    put_number(v, chain[0], 104 + 4 * i, p.0, buffer)
}

// The mark of extent n of an IAM page's interval is turned.
fn edit_mark(page: &mut Page, n: u32, value: u8)
    requires { n < BIT_COUNT }
    ensures { page.new.bytes ≡ with_bytes page.old.bytes (136 + n / 8) (with_bit (slice_index page.old.bytes (136 + n / 8)) (n % 8) value ∷ []) }
{
    is_whole(page);
    let at = 136 + n as usize / 8;
    page.bytes[at] = byte_with_bit(page.bytes[at], n % 8, value);
}

/// IAM page q, which the statement has reached, marks an extent of its interval, by 1, or no more, by 0.
pub(crate) fn put_mark<P: PlanPages>(
    v: &mut P,
    geometry: Geometry,
    e: ExtentNo,
    value: u8,
    q: PageNo,
    buffer: &mut Page,
) -> Result<(), PageStop>
    requires geometry { geometry ≡ (P.state v.old).view.shape.geometry }
    requires ownable { IsOwnable (P.state v.old).view.shape q.0 }
    ensures { (looked : List ℕ) → (IsTrue (P.state v.old).told → Contains looked q.0) → DoesAfter looked (P.state v.old) (P.state v.new) (spec.put_mark (P.state v.old).view.shape e.0 value q.0) result }
{
    let n = e.0 % interval_size(geometry);
    look_page(v, q, buffer)?;
    edit_mark(buffer, n, value);
    put_page(v, q, buffer)
}
