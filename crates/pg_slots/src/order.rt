// The test of the rows in the order of offset, then slot.
ghost use Rattle.std.specs.Prelude.{◌≡◌, ◌<◌, ◌≤◌, IsTrue, MatchOption, length, map};
ghost use Rattle.std.specs.List.{range_with_len};
ghost use Rattle.spec_rows.specs.Slots as slots;
ghost use Rattle.spec_rows.specs.PageTest as spec;
ghost use Rattle.spec_rows.specs.Order.{IsInOrder};
ghost use Rattle.pg_slots.specs.Sizes.{RowsStand};
ghost use Rattle.pg_slots.specs.Starts.{start_of, AreInOrder};

use crate::SlotFault;
use crate::header::fault;
use crate::slot::{row_size, slot_at};
use pg_base::Page;
use spec_rows::SLOT_LIMIT;

/// Where the row of a slot begins. Rows stand in this order.
#[derive(Clone, Copy, PartialEq, Eq, PartialOrd, Ord)]
struct RowStart {
    offset: u16,
    slot: u16,
}

/// The first row that begins before the end of the one before. Offsets that rise from slot to slot, as
/// they mostly do, need no sort.
pub(crate) fn order_fault(page: &Page, count: u16) -> Option<SlotFault>
    requires rows { RowsStand page.now.bytes }
    requires count { count ≡ slots.slot_count page.now.bytes }
    ensures { MatchOption result (spec.OrderPasses page.now.bytes) (spec.IsFirstOverlap page.now.bytes) }
{
    if offsets_rise(page, count) {
        fault_of_rising(page, count)
    } else {
        fault_of_sorted(page, count)
    }
}

// No offset is below that of the slot before: the order is that of the slots.
fn offsets_rise(page: &Page, count: u16) -> bool
    requires count { count ≡ slots.slot_count page.now.bytes }
    requires few { count ≤ slots.slot_limit }
    ensures { IsTrue result → IsInOrder page.now.bytes (λ k. k) }
{
    for slot in 1..count {
        if slot_at(page, slot) < slot_at(page, slot - 1) {
            return false;
        }
    }
    true
}

// What is wrong where the row of one slot comes right before that of another.
fn overlap(page: &Page, before: u16, slot: u16) -> Option<SlotFault>
    requires rows { RowsStand page.now.bytes }
    requires first { before < slots.slot_count page.now.bytes }
    requires second { slot < slots.slot_count page.now.bytes }
    ensures { MatchOption result (slots.row_end page.now.bytes before ≤ slots.slot_at page.now.bytes slot)
        (λ x. (slots.slot_at page.now.bytes slot < slots.row_end page.now.bytes before)
        × (x ≡ spec.fault 8942 slot (slots.slot_at page.now.bytes slot))) }
{
    let end = slot_at(page, before) + row_size(page, before);
    let at = slot_at(page, slot);
    if at < end {
        return Some(fault(8942, slot as u32, at as u64));
    }
    None
}

// The same where the order is that of the slots.
fn fault_of_rising(page: &Page, count: u16) -> Option<SlotFault>
    requires rows { RowsStand page.now.bytes }
    requires count { count ≡ slots.slot_count page.now.bytes }
    requires order { IsInOrder page.now.bytes (λ k. k) }
    ensures { MatchOption result (spec.OrderPasses page.now.bytes) (spec.IsFirstOverlap page.now.bytes) }
{
    for slot in 1..count {
        if let Some(fault) = overlap(page, slot - 1, slot) {
            return Some(fault);
        }
    }
    None
}

// The same in any case: where the rows begin is sorted.
fn fault_of_sorted(page: &Page, count: u16) -> Option<SlotFault>
    requires rows { RowsStand page.now.bytes }
    requires count { count ≡ slots.slot_count page.now.bytes }
    ensures { MatchOption result (spec.OrderPasses page.now.bytes) (spec.IsFirstOverlap page.now.bytes) }
{
    let mut starts = [RowStart { offset: 0, slot: 0 }; SLOT_LIMIT as usize];
    let order = &mut starts[..count as usize];
    sort_slots(page, order);
    fault_in_order(page, order)
}

// Fills in where the row of each slot begins, and sorts: by offset alone, which is faster, and by slot too
// where rows begin at one offset, as they seldom do.
fn sort_slots(page: &Page, starts: &mut [RowStart])
    requires count { length starts.old ≡ slots.slot_count page.now.bytes }
    requires few { length starts.old ≤ slots.slot_limit }
    ensures { AreInOrder page.now.bytes starts.new }
{
    put_starts(page, starts);
    starts.sort_unstable_by_key(|start| start.offset);
    if !starts.is_sorted() {
        starts.sort_unstable();
    }
}

fn put_starts(page: &Page, starts: &mut [RowStart])
    requires { length starts.old ≤ slots.slot_limit }
    ensures { starts.new ≡ map (start_of page.now.bytes) (range_with_len 0 (length starts.old)) }
{
    for k in 0..starts.len() {
        let slot = k as u16;
        starts[k] = RowStart {
            offset: slot_at(page, slot),
            slot,
        };
    }
}

fn fault_in_order(page: &Page, starts: &[RowStart]) -> Option<SlotFault>
    requires rows { RowsStand page.now.bytes }
    requires count { length starts.now ≡ slots.slot_count page.now.bytes }
    requires order { AreInOrder page.now.bytes starts.now }
    ensures { MatchOption result (spec.OrderPasses page.now.bytes) (spec.IsFirstOverlap page.now.bytes) }
{
    for k in 1..starts.len() {
        if let Some(fault) = overlap(page, starts[k - 1].slot, starts[k].slot) {
            return Some(fault);
        }
    }
    None
}
