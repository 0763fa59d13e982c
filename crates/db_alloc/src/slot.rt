// A single page comes into a slot of its object's chain.
ghost use Rattle.std.specs.Prelude.{◌≡◌, ◌<◌, ◌≤◌, ◌==◌, ℕ, List, length, filter, slice_index, IsTrue, IfOk, IfSome, Contains};
ghost use Rattle.std.specs.Option.{option_map};
ghost use Rattle.std.specs.List.{range_with_len};
ghost use Rattle.spec_plan.specs.Reading.{first_page};
ghost use Rattle.spec_alloc.specs.ObjectPages as spec;
ghost use Rattle.spec_alloc.specs.Search.{first_in};
ghost use Rattle.db_locks.specs.Does.{DoesAfter};
ghost use Rattle.db_alloc.specs.Maps.{IsOwnable};
ghost use Rattle.db_alloc.specs.Objects.{in_slot, HasChain};
ghost use Rattle.db_alloc.specs.Results.{value_as};
ghost use Rattle.db_alloc.specs.Searches.{MayRead};
ghost use Rattle.db_alloc.specs.Tables.{numbers};

use crate::chain::Chain;
use crate::links::put_slot;
use crate::marks::chain_slots;
use crate::object::take_page;
use crate::search::{Maps, Reader};
use crate::single::single_page;
use db_locks::{PageStop, PlanPages};
use pg_base::{Page, PageNo};
use pg_pfs::{PfsKind, expected};

// The lowest of these slots that holds no page.
fn free_slot(slots: &[PageNo]) -> Option<usize>
    ensures slot { result ≡ first_in (filter (λ i. slice_index (numbers slots.now) i == 0) (range_with_len 0 (length slots.now))) }
    ensures inside { IfSome result (λ i. i < length slots.now) }
{
    for i in 0..slots.len() {
        if slots[i].0 == 0 {
            return Some(i);
        }
    }
    None
}

// Page p is taken for slot i of the chain.
fn take_in_slot<P: PlanPages>(
    v: &mut P,
    chain: &[PageNo],
    path: &[PageNo],
    i: usize,
    p: PageNo,
    buffer: &mut Page,
) -> Result<(), PageStop>
    requires some { 1 ≤ length chain.now }
    requires first { IsOwnable (P.state v.old).view.shape (first_page (numbers chain.now)) }
    requires slot { i < 8 }
    requires inside { p.0 < (P.state v.old).view.shape.pages }
    ensures { (looked : List ℕ) → (IsTrue (P.state v.old).told → Contains looked (first_page (numbers chain.now))) → DoesAfter looked (P.state v.old) (P.state v.new) (in_slot (numbers chain.now) (numbers path.now) i p.0) (value_as (λ done. p.0) result) }
{
    take_page(v, p, chain, path, buffer)?;
    put_slot(v, chain, p, i, buffer)
}

// Slot i of the chain gets a single page, if one is to be had.
fn page_in_slot<P: PlanPages>(
    v: &mut P,
    reader: Reader,
    chain: &[PageNo],
    path: &[PageNo],
    i: usize,
    maps: &mut Maps,
) -> Result<Option<PageNo>, PageStop>
    requires reader { MayRead reader (P.state v.old).view }
    requires some { 1 ≤ length chain.now }
    requires first { IsOwnable (P.state v.old).view.shape (first_page (numbers chain.now)) }
    requires slot { i < 8 }
    ensures does { (looked : List ℕ) → (IsTrue (P.state v.old).told → Contains looked (first_page (numbers chain.now))) → DoesAfter looked (P.state v.old) (P.state v.new) (spec.page_in_slot (P.state v.old).view.shape (numbers chain.now) (numbers path.now) i) (value_as (option_map (λ p. p.0)) result) }
    ensures ownable { IfOk result (λ found. IfSome found (λ p. IsOwnable (P.state v.old).view.shape p.0)) }
{
    match single_page(v, reader, expected(PfsKind::Single, 0), maps)? {
        Some(p) => {
            take_in_slot(v, chain, path, i, p, &mut maps.pfs)?;
            Ok(Some(p))
        }
        None => Ok(None),
    }
}

/// A single page for the lowest slot of the chain that holds none; None where each holds one, or no single
/// page is to be had.
pub(crate) fn slot_page<P: PlanPages>(
    v: &mut P,
    reader: Reader,
    chain: &Chain,
    path: &[PageNo],
    maps: &mut Maps,
) -> Result<Option<PageNo>, PageStop>
    requires reader { MayRead reader (P.state v.old).view }
    requires chain { HasChain chain.now (P.state v.old) }
    ensures does { (looked : List ℕ) → (IsTrue (P.state v.old).told → Contains looked (first_page (numbers chain.now.numbers.items))) → DoesAfter looked (P.state v.old) (P.state v.new) (spec.slot_page (P.state v.old).view.shape (numbers chain.now.numbers.items) (numbers path.now)) (value_as (option_map (λ p. p.0)) result) }
    ensures ownable { IfOk result (λ found. IfSome found (λ p. IsOwnable (P.state v.old).view.shape p.0)) }
{
    let slots = chain_slots(chain);
    match free_slot(&slots) {
        Some(i) => page_in_slot(v, reader, &chain.numbers, path, i, maps),
        None => Ok(None),
    }
}
