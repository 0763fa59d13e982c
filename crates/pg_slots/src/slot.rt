// One slot and its row.
ghost use Rattle.std.specs.Prelude.{◌≡◌, ◌<◌, ◌≤◌};
ghost use Rattle.spec_file.specs.Header.{header_of};
ghost use Rattle.spec_rows.specs.Rows.{is_data_status};
ghost use Rattle.spec_rows.specs.Slots as slots;
ghost use Rattle.spec_rows.specs.PageTest as spec;
ghost use Rattle.pg_slots.specs.Sizes.{SaysSize};

use crate::SlotFault;
use crate::header::fault;
use pg_base::{Header, INDEX_TYPE, Kind, MAPS_START, PAGE_SIZE, Page, u16_at};
use spec_file::ROW_LIMIT;
use spec_rows::{DATA_HEAD, DATA_STATUS, INDEX_LENGTH, INDEX_STATUS};

/// The offset that a slot gives.
pub(crate) fn slot_at(page: &Page, slot: u16) -> u16
    requires { slot < slots.slot_limit }
    ensures { result ≡ slots.slot_at page.now.bytes slot }
{
    u16_at(&page.bytes, 8190 - 2 * slot as usize)
}

/// The length that the row of a slot says it has.
pub(crate) fn row_size(page: &Page, slot: u16) -> u16
    requires slot { slot < slots.slot_limit }
    requires says { SaysSize page.now.bytes (slots.slot_at page.now.bytes slot) }
    ensures { result ≡ slots.row_size page.now.bytes slot }
{
    size_at(page, slot_at(page, slot))
}

/// The length that the row at an offset says it has.
pub(crate) fn size_at(page: &Page, at: u16) -> u16
    requires { SaysSize page.now.bytes at }
    ensures { result ≡ slots.size_at page.now.bytes at }
{
    if page.bytes[1] == INDEX_TYPE {
        INDEX_LENGTH
    } else {
        u16_at(&page.bytes, at as usize + 1)
    }
}

// A data page of a table of this kind may have rows that begin with this byte.
fn is_data_status(kind: Kind, status: u8) -> bool
    ensures { result ≡ is_data_status kind status }
{
    match kind {
        Kind::Heap | Kind::Clustered => status == DATA_STATUS,
    }
}

// A row header that the page may have stands at an offset, whole before the end of the rows.
fn has_row_header(page: &Page, header: &Header, kind: Kind, at: u16) -> bool
    requires header { header.now ≡ header_of page.now.bytes }
    requires end { header.now.free_from ≤ PAGE_SIZE }
    requires within { at < PAGE_SIZE }
    ensures { result ≡ slots.has_row_header kind page.now.bytes at }
{
    let status = page.bytes[at as usize];
    if header.page_type == INDEX_TYPE {
        return status == INDEX_STATUS;
    }
    if !is_data_status(kind, status) || at + 3 > header.free_from {
        return false;
    }
    let length = u16_at(&page.bytes, at as usize + 1);
    length >= DATA_HEAD && length as usize <= ROW_LIMIT
}

// A row begins at the offset of a slot.
fn begins_row(page: &Page, header: &Header, kind: Kind, slot: u16) -> bool
    requires header { header.now ≡ header_of page.now.bytes }
    requires end { header.now.free_from ≤ PAGE_SIZE }
    requires slot { slot < slots.slot_limit }
    ensures { result ≡ slots.begins_row kind page.now.bytes slot }
{
    let at = slot_at(page, slot);
    at as usize >= MAPS_START && at < header.free_from && has_row_header(page, header, kind, at)
}

/// What is wrong with a slot: where its row begins, or where it ends.
pub(crate) fn slot_fault(page: &Page, header: &Header, kind: Kind, slot: u16) -> Option<SlotFault>
    requires header { header.now ≡ header_of page.now.bytes }
    requires end { header.now.free_from ≤ PAGE_SIZE }
    requires slot { slot < slots.slot_limit }
    ensures { result ≡ spec.slot_fault kind page.now.bytes slot }
{
    let at = slot_at(page, slot);
    if !begins_row(page, header, kind, slot) {
        return Some(fault(8941, slot as u32, at as u64));
    }
    let end = at + size_at(page, at);
    if end > header.free_from {
        return Some(fault(8943, slot as u32, end as u64));
    }
    None
}
