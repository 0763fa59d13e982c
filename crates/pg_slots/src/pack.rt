ghost use Rattle.std.specs.Prelude.{◌≡◌, ◌+◌, ◌-◌, ◌*◌, ◌<◌, ◌≤◌, IsTrue, take, drop, slice_range, replicate};
ghost use Rattle.spec_rows.specs.Slots as slots;
ghost use Rattle.spec_file.specs.Header.{header_of};
ghost use Rattle.spec_rows.specs.PageTest.{HoldsRows, has_room};
ghost use Rattle.spec_rows.specs.Changes.{IsCompacted, KeepsTest};
ghost use Rattle.pg_slots.specs.Sizes.{RowsHaveRoom};
ghost use Rattle.pg_slots.specs.Puts.{MovesRow, MovesRows};

use crate::puts::{put_row, put_slot, set_counts};
use crate::rows::row_at;
use pg_base::{Kind, MAPS_START, PAGE_SIZE, Page, is_whole, read_header};

/// Moves the rows of a page of a table of this kind together: they stand behind the header in the order of their slots, with zeros behind
/// them up to the slots.
pub fn compact(page: &mut Page, kind: Kind)
    requires { HoldsRows kind page.old.bytes }
    ensures compacted { IsCompacted page.old.bytes page.new.bytes }
    ensures rows { slots.page_rows page.new.bytes ≡ slots.page_rows page.old.bytes }
    ensures holds { HoldsRows kind page.new.bytes }
    ensures test { KeepsTest kind page.old.bytes page.new.bytes }
{
    is_whole(page);
    move_together(page);
}

// Moves the rows together where they have room.
fn move_together(page: &mut Page)
    requires rows { RowsHaveRoom page.old.bytes }
    requires room { IsTrue (has_room (header_of page.old.bytes)) }
    ensures { IsCompacted page.old.bytes page.new.bytes }
{
    is_whole(page);
    let source = Page { bytes: page.bytes };
    let header = read_header(page);
    let end = move_rows(page, &source, header.slots);
    clear(page, end as usize, PAGE_SIZE - 2 * header.slots as usize);
    set_counts(page, header.slots, header.free_count, end);
    is_whole(page);
}

// Puts the rows of another page where they belong, and answers where they end.
fn move_rows(page: &mut Page, source: &Page, count: u16) -> u16
    requires same { page.old.bytes ≡ source.now.bytes }
    requires rows { RowsHaveRoom source.now.bytes }
    requires count { count ≡ slots.slot_count source.now.bytes }
    ensures end { result ≡ MAPS_START + slots.rows_size source.now.bytes count }
    ensures moved { MovesRows count source.now.bytes page.new.bytes }
    ensures within { result + 2 * count ≤ PAGE_SIZE }
{
    is_whole(source);
    let mut at = MAPS_START as u16;
    for slot in 0..count {
        at = move_row(page, source, slot, at);
    }
    at
}

// Puts one row and its slot, and answers where the row ends.
fn move_row(page: &mut Page, source: &Page, slot: u16, at: u16) -> u16
    requires rows { RowsHaveRoom source.now.bytes }
    requires slot { slot < slots.slot_count source.now.bytes }
    requires at { at ≡ MAPS_START + slots.rows_size source.now.bytes slot }
    ensures end { result ≡ MAPS_START + slots.rows_size source.now.bytes (slot + 1) }
    ensures moved { MovesRow slot at result (slots.page_row source.now.bytes slot) page.old.bytes page.new.bytes }
{
    let row = row_at(source, slot);
    put_row(page, at, row);
    put_slot(page, slot, at);
    at + row.len() as u16
}

// Makes a part of the page 0.
fn clear(page: &mut Page, from: usize, to: usize)
    requires order { from ≤ to }
    requires within { to ≤ PAGE_SIZE }
    ensures zeros { slice_range page.new.bytes from to ≡ replicate (to - from) 0 }
    ensures front { take from page.new.bytes ≡ take from page.old.bytes }
    ensures back { drop to page.new.bytes ≡ drop to page.old.bytes }
{
    page.bytes[from..to].fill(0);
}
