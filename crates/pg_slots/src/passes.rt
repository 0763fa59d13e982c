ghost use Rattle.std.specs.Prelude.{◌≡◌, ◌↔◌, ◌*◌, ◌≤◌, IsTrue, IsOk, IfOk, IfErr, MatchOption};
ghost use Rattle.spec_file.specs.Header.{header_of};
ghost use Rattle.spec_rows.specs.Slots as slots;
ghost use Rattle.spec_rows.specs.PageTest as spec;
ghost use Rattle.pg_slots.specs.Faults.{RowsPass, IsRowsFault};
ghost use Rattle.pg_slots.specs.Sizes.{RowsStand};
ghost use Rattle.pg_slots.specs.Views.{bytes_of, kind_of};

use crate::SlotFault;
use crate::header::{fault, form_fault, owner_fault};
use crate::order::order_fault;
use crate::rows::view_of;
use crate::slot::{row_size, slot_fault};
use crate::view::SlotView;
use pg_base::{Header, Kind, ObjId, PAGE_SIZE, Page, PageNo, read_header};
use spec_file::ROOM;

/// Page p of an object, as its rows; the first fault where it fails its test.
pub fn test_page(
    page: &Page,
    p: PageNo,
    object: ObjId,
    kind: Kind,
) -> Result<SlotView<'_>, SlotFault>
    ensures passes { IsOk result ↔ spec.PassesTest p.0 object.0 kind page.now.bytes }
    ensures view { IfOk result (λ view. bytes_of view ≡ page.now.bytes) }
    ensures kind { IfOk result (λ view. kind_of view ≡ kind) }
    ensures fault { IfErr result (spec.IsFirstFault p.0 object.0 kind page.now.bytes) }
{
    match first_fault(page, p, object, kind) {
        Some(fault) => Err(fault),
        None => Ok(view_of(page, kind)),
    }
}

// The first test that the page fails.
fn first_fault(page: &Page, p: PageNo, object: ObjId, kind: Kind) -> Option<SlotFault>
    ensures { MatchOption result (spec.PassesTest p.0 object.0 kind page.now.bytes)
        (spec.IsFirstFault p.0 object.0 kind page.now.bytes) }
{
    let header = read_header(page);
    if let Some(fault) = header_fault(page, &header, p, object, kind) {
        return Some(fault);
    }
    rows_fault(page, &header, kind)
}

// The first test of its header that the page fails.
fn header_fault(
    page: &Page,
    header: &Header,
    p: PageNo,
    object: ObjId,
    kind: Kind,
) -> Option<SlotFault>
    requires { header.now ≡ header_of page.now.bytes }
    ensures { MatchOption result (spec.HeaderPasses p.0 object.0 kind page.now.bytes)
        (spec.IsFirstFault p.0 object.0 kind page.now.bytes) }
{
    if let Some(fault) = owner_fault(header, p, object, kind) {
        return Some(fault);
    }
    form_fault(header, page.bytes[0], kind)
}

// The first test of its rows that the page fails.
fn rows_fault(page: &Page, header: &Header, kind: Kind) -> Option<SlotFault>
    requires header { header.now ≡ header_of page.now.bytes }
    requires room { IsTrue (spec.has_room (header_of page.now.bytes)) }
    ensures { MatchOption result (RowsPass kind page.now.bytes) (IsRowsFault kind page.now.bytes) }
{
    if let Some(fault) = first_slot_fault(page, header, kind) {
        return Some(fault);
    }
    if let Some(fault) = order_fault(page, header.slots) {
        return Some(fault);
    }
    if !has_free_count(page, header) {
        return Some(fault(8939, 0, 7));
    }
    None
}

// What is wrong with the first slot that has a fault.
fn first_slot_fault(page: &Page, header: &Header, kind: Kind) -> Option<SlotFault>
    requires header { header.now ≡ header_of page.now.bytes }
    requires room { IsTrue (spec.has_room (header_of page.now.bytes)) }
    ensures { MatchOption result (spec.SlotsPass kind page.now.bytes) (spec.IsFirstSlotFault kind page.now.bytes) }
{
    for slot in 0..header.slots {
        if let Some(fault) = slot_fault(page, header, kind, slot) {
            return Some(fault);
        }
    }
    None
}

// The header says how many bytes neither rows nor slots use.
fn has_free_count(page: &Page, header: &Header) -> bool
    requires header { header.now ≡ header_of page.now.bytes }
    requires rows { RowsStand page.now.bytes }
    ensures { result ≡ spec.has_free_count page.now.bytes }
{
    let used = rows_size(page, header.slots) + 2 * header.slots as u32;
    header.free_count as u32 + used == ROOM as u32
}

// How many bytes the rows have.
fn rows_size(page: &Page, count: u16) -> u32
    requires rows { RowsStand page.now.bytes }
    requires count { count ≡ slots.slot_count page.now.bytes }
    ensures value { result ≡ slots.rows_size page.now.bytes count }
    ensures most { result ≤ PAGE_SIZE * slots.slot_limit }
{
    let mut total = 0;
    for slot in 0..count {
        total += row_size(page, slot) as u32;
    }
    total
}
