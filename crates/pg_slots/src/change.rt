ghost use Rattle.std.specs.Prelude.{◌≡◌, ◌↔◌, ◌+◌, ◌<◌, ◌≤◌, ◌==◌, if◌then◌else◌, IsTrue, IsErr, IfErr, OnErr, OnOk, length, slice_set};
ghost use Rattle.std.specs.List.{insert, remove};
ghost use Rattle.spec_file.specs.Header.{header_of};
ghost use Rattle.spec_rows.specs.Slots as slots;
ghost use Rattle.spec_rows.specs.PageTest.{HoldsRows, has_room};
ghost use Rattle.spec_rows.specs.Changes as spec;
ghost use Rattle.pg_slots.specs.Sizes.{RowsStand};

use crate::pack::compact;
use crate::puts::{close_slot, open_slot, put_row, set_counts};
use crate::slot::row_size;
use pg_base::{Header, Kind, MAPS_START, PAGE_SIZE, Page, is_whole, read_header};
use spec_file::ROOM;

/// Removes row i of a page of a table of this kind. Its bytes stay; later slots close up.
pub fn remove_at(page: &mut Page, kind: Kind, i: u16)
    requires holds { HoldsRows kind page.old.bytes }
    requires i { i < slots.slot_count page.old.bytes }
    ensures removed { spec.IsRemoved i page.old.bytes page.new.bytes }
    ensures rows { slots.page_rows page.new.bytes ≡ remove (slots.page_rows page.old.bytes) i }
    ensures holds { HoldsRows kind page.new.bytes }
    ensures test { spec.KeepsTest kind page.old.bytes page.new.bytes }
{
    is_whole(page);
    take_out(page, i);
}

// Removes row i from the slots and counts.
fn take_out(page: &mut Page, i: u16)
    requires rows { RowsStand page.old.bytes }
    requires room { IsTrue (has_room (header_of page.old.bytes)) }
    requires free { (header_of page.old.bytes).free_count ≤ ROOM }
    requires i { i < slots.slot_count page.old.bytes }
    ensures { spec.IsRemoved i page.old.bytes page.new.bytes }
{
    is_whole(page);
    let header = read_header(page);
    let size = row_size(page, i);
    close_slot(page, i, header.slots);
    set_counts(
        page,
        header.slots - 1,
        header.free_count + size + 2,
        end_without_one(&header),
    );
    is_whole(page);
}

// Where the rows end once one is removed.
fn end_without_one(header: &Header) -> u16
    ensures { result ≡ (if header.now.slots == 1 then MAPS_START else header.now.free_from) }
{
    if header.slots == 1 {
        MAPS_START as u16
    } else {
        header.free_from
    }
}

// Puts a row where the others end, as row i.
fn place(page: &mut Page, i: u16, row: &[u8])
    requires room { IsTrue (has_room (header_of page.old.bytes)) }
    requires i { i ≤ slots.slot_count page.old.bytes }
    requires behind { spec.FitsBehind row.now page.old.bytes }
    requires free { length row.now + 2 ≤ (header_of page.old.bytes).free_count }
    ensures { spec.IsPlaced i row.now page.old.bytes page.new.bytes }
{
    is_whole(page);
    let header = read_header(page);
    let size = row.len() as u16;
    open_slot(page, i, header.slots, header.free_from);
    put_row(page, header.free_from, row);
    set_counts(
        page,
        header.slots + 1,
        header.free_count - (size + 2),
        header.free_from + size,
    );
    is_whole(page);
}

/// A page has no room for a row.
#[derive(Clone, Copy, Debug, PartialEq, Eq)]
pub struct NoRoom {
    /// How many bytes are free; for a replacement with those of the old row.
    pub free: u16,
}

/// Puts a row in as row i of a page of a table of this kind. Where the page has no room for it and its slot, nothing changes.
pub fn insert_at(page: &mut Page, kind: Kind, i: u16, row: &[u8]) -> Result<(), NoRoom>
    requires holds { HoldsRows kind page.old.bytes }
    requires i { i ≤ slots.slot_count page.old.bytes }
    requires fits { IsTrue (slots.fits_page kind page.old.bytes row.now) }
    ensures full { IsErr result ↔ ((header_of page.old.bytes).free_count < length row.now + 2) }
    ensures free { IfErr result (λ full. full.free ≡ (header_of page.old.bytes).free_count) }
    ensures unchanged { OnErr result (page.new.bytes ≡ page.old.bytes) }
    ensures inserted { OnOk result (spec.IsInserted i row.now page.old.bytes page.new.bytes) }
    ensures rows { OnOk result (slots.page_rows page.new.bytes ≡ insert (slots.page_rows page.old.bytes) i row.now) }
    ensures holds { OnOk result (HoldsRows kind page.new.bytes) }
    ensures test { OnOk result (spec.MeetsTest kind page.old.bytes page.new.bytes) }
{
    let free = read_header(page).free_count;
    if (free as usize) < row.len() + 2 {
        return Err(NoRoom { free });
    }
    put_in(page, kind, i, row);
    Ok(())
}

/// Replaces row i of a page of a table of this kind. Where the page has no room for the new row, nothing changes.
pub fn replace_at(page: &mut Page, kind: Kind, i: u16, row: &[u8]) -> Result<(), NoRoom>
    requires holds { HoldsRows kind page.old.bytes }
    requires i { i < slots.slot_count page.old.bytes }
    requires fits { IsTrue (slots.fits_page kind page.old.bytes row.now) }
    ensures full { IsErr result ↔ ((header_of page.old.bytes).free_count + slots.row_size page.old.bytes i < length row.now) }
    ensures free { IfErr result (λ full. full.free ≡ (header_of page.old.bytes).free_count + slots.row_size page.old.bytes i) }
    ensures unchanged { OnErr result (page.new.bytes ≡ page.old.bytes) }
    ensures replaced { OnOk result (spec.IsReplaced i row.now page.old.bytes page.new.bytes) }
    ensures rows { OnOk result (slots.page_rows page.new.bytes ≡ slice_set (slots.page_rows page.old.bytes) i row.now) }
    ensures holds { OnOk result (HoldsRows kind page.new.bytes) }
    ensures test { OnOk result (spec.MeetsTest kind page.old.bytes page.new.bytes) }
{
    let header = read_header(page);
    let free = header.free_count + row_size(page, i);
    if (free as usize) < row.len() {
        return Err(NoRoom { free });
    }
    exchange(page, kind, i, row);
    Ok(())
}

// Replaces row i where there is room.
fn exchange(page: &mut Page, kind: Kind, i: u16, row: &[u8])
    requires holds { HoldsRows kind page.old.bytes }
    requires i { i < slots.slot_count page.old.bytes }
    requires fits { IsTrue (slots.fits_page kind page.old.bytes row.now) }
    requires room { length row.now ≤ (header_of page.old.bytes).free_count + slots.row_size page.old.bytes i }
    ensures replaced { spec.IsReplaced i row.now page.old.bytes page.new.bytes }
    ensures rows { slots.page_rows page.new.bytes ≡ slice_set (slots.page_rows page.old.bytes) i row.now }
    ensures holds { HoldsRows kind page.new.bytes }
    ensures test { spec.MeetsTest kind page.old.bytes page.new.bytes }
{
    remove_at(page, kind, i);
    put_in(page, kind, i, row);
}

// Puts a row in where there is room.
fn put_in(page: &mut Page, kind: Kind, i: u16, row: &[u8])
    requires holds { HoldsRows kind page.old.bytes }
    requires i { i ≤ slots.slot_count page.old.bytes }
    requires fits { IsTrue (slots.fits_page kind page.old.bytes row.now) }
    requires room { length row.now + 2 ≤ (header_of page.old.bytes).free_count }
    ensures inserted { spec.IsInserted i row.now page.old.bytes page.new.bytes }
    ensures rows { slots.page_rows page.new.bytes ≡ insert (slots.page_rows page.old.bytes) i row.now }
    ensures holds { HoldsRows kind page.new.bytes }
    ensures test { spec.MeetsTest kind page.old.bytes page.new.bytes }
{
    is_whole(page);
    find_place(page, kind, i, row);
}

// Puts a row behind the others, which are moved together where it doesn't fit there.
fn find_place(page: &mut Page, kind: Kind, i: u16, row: &[u8])
    requires holds { HoldsRows kind page.old.bytes }
    requires i { i ≤ slots.slot_count page.old.bytes }
    requires room { length row.now + 2 ≤ (header_of page.old.bytes).free_count }
    ensures { spec.IsInserted i row.now page.old.bytes page.new.bytes }
{
    is_whole(page);
    if fits_behind(page, row) {
        place(page, i, row);
        return;
    }
    compact(page, kind);
    place(page, i, row);
}

// The row and its slot fit behind the others.
fn fits_behind(page: &Page, row: &[u8]) -> bool
    requires { length row.now ≤ PAGE_SIZE }
    ensures { IsTrue result ↔ spec.FitsBehind row.now page.now.bytes }
{
    let header = read_header(page);
    header.free_from as usize + row.len() + 2 * (header.slots as usize + 1) <= PAGE_SIZE
}
