// The pages that the chain of a table gives it: those in single-page slots, and those of marked extents.
ghost use Rattle.std.specs.Prelude.{◌≡◌, ◌<◌, ◌≤◌, ◌||◌, ◌==◌, IfOk, IfErr, filter, length, All};
ghost use Rattle.std.specs.List.{list_any, range_with_len};
ghost use Rattle.spec_file.specs.declared.sizes.TheConstants.{BIT_COUNT};
ghost use Rattle.spec_file.specs.Iam.{iam_mark};
ghost use Rattle.db_locks.specs.declared.plan_pages.PageStop.TheVariants as stop;
ghost use Rattle.db_alloc.specs.Marks as spec;
ghost use Rattle.db_alloc.specs.Tables.{numbers, bytes_of};

use crate::Table;
use crate::chain::Chain;
use crate::iam::slots_of;
use crate::list::{has_page, push_if};
use crate::near::pages_near;
use arrayvec::ArrayVec;
use db_locks::PageStop;
use pg_base::{Geometry, MAPS_START, Page, PageNo, u32_at};
use pg_geom::{interval_pages, interval_size};
use std::alloc::Global;

// An IAM page marks extent n of its interval.
fn has_mark(iam: &Page, n: u32) -> bool
    requires { n < BIT_COUNT }
    ensures { result ≡ iam_mark iam.now.bytes n }
{
    (iam.bytes[136 + n as usize / 8] >> (n % 8)) & 1 == 1
}

/// An IAM page marks the extent of page p.
pub(crate) fn marks(g: Geometry, iam: &Page, p: PageNo) -> bool
    ensures { result ≡ spec.marks g p.0 iam.now.bytes }
{
    u32_at(&iam.bytes, MAPS_START) == p.0 / interval_pages(g)
        && has_mark(iam, (p.0 / 8) % interval_size(g))
}

/// One of these IAM pages marks the extent of page p.
pub(crate) fn is_marked(g: Geometry, iams: &[Box<Page>], p: PageNo) -> bool
    ensures { result ≡ list_any (spec.marks g p.0) (bytes_of iams.now) }
{
    for iam in iams {
        if marks(g, iam, p) {
            return true;
        }
    }
    false
}

/// One of these slots holds page p.
pub(crate) fn is_single(slots: &[PageNo], p: PageNo) -> bool
    ensures { result ≡ spec.is_in_slot (numbers slots.now) p.0 }
{
    p.0 != 0 && has_page(slots, p)
}

/// Page p is in one of these single-page slots, or in the chain.
pub(crate) fn is_shared(slots: &[PageNo], chain: &[PageNo], p: PageNo) -> bool
    ensures { result ≡ (spec.is_in_slot (numbers slots.now) p.0 || list_any (λ q. q == p.0) (numbers chain.now)) }
{
    is_single(slots, p) || has_page(chain, p)
}

/// The single-page slots of a chain: those of its first page.
pub(crate) fn chain_slots(chain: &Chain) -> ArrayVec<PageNo, 8>
    ensures { numbers result.items ≡ spec.first_slots (bytes_of chain.now.pages.items) }
{
    if chain.pages.is_empty() {
        return ArrayVec::from([PageNo(0); 8]);
    }
    slots_of(&chain.pages[0])
}

// The PFS byte of page p is read: it is in one of these slots, or in an extent that one of these pages
// marks.
fn has_byte(g: Geometry, slots: &[PageNo], iams: &[Box<Page>], p: PageNo) -> bool
    requires { numbers slots.now ≡ spec.first_slots (bytes_of iams.now) }
    ensures { result ≡ spec.has_byte g (bytes_of iams.now) p.0 }
{
    is_single(slots, p) || is_marked(g, iams, p)
}

// Those of these pages whose PFS bytes are read.
fn with_bytes(
    alloc: Global,
    g: Geometry,
    slots: &[PageNo],
    iams: &[Box<Page>],
    near: &[u32],
) -> Result<Vec<PageNo>, PageStop>
    requires { numbers slots.now ≡ spec.first_slots (bytes_of iams.now) }
    ensures pages { IfOk result (λ pages. numbers pages.items ≡ filter (spec.has_byte g (bytes_of iams.now)) near.now) }
    ensures short { IfErr result (λ e. e ≡ stop.NoMemory) }
{
    let mut pages = Vec::new(alloc);
    for p in near {
        let yes = has_byte(g, slots, iams, PageNo(*p));
        push_if(&mut pages, PageNo(*p), yes)?;
    }
    Ok(pages)
}

/// The pages of the file whose PFS bytes are read, rising.
pub(crate) fn byte_pages(
    alloc: Global,
    table: &Table,
    chain: &Chain,
) -> Result<Vec<PageNo>, PageStop>
    ensures pages { IfOk result (λ pages. numbers pages.items ≡ filter (spec.has_byte table.now.geometry (bytes_of chain.now.pages.items)) (range_with_len 0 table.now.pages)) }
    ensures inside { IfOk result (λ pages. All (λ p. p < table.now.pages) (numbers pages.items)) }
    ensures few { IfOk result (λ pages. length pages.items ≤ table.now.pages) }
    ensures short { IfErr result (λ e. e ≡ stop.NoMemory) }
{
    let slots = chain_slots(chain);
    let near = pages_near(alloc, table, &slots, &chain.pages)?;
    with_bytes(alloc, table.geometry, &slots, &chain.pages, &near)
}
