// Bytes of a page, put part by part.
ghost use Rattle.std.specs.Prelude.{◌≡◌, ◌+◌, ◌*◌, ◌<◌, ◌≤◌, length, take, drop};
ghost use Rattle.spec_file.specs.Header.{header_of};
ghost use Rattle.spec_rows.specs.Slots.{slot_limit};
ghost use Rattle.spec_rows.specs.Changes.{with_counts};
ghost use Rattle.pg_slots.specs.Puts.{PutsSlot, PutsRow, OpensSlot, ClosesSlot};

use crate::slot::slot_at;
use pg_base::{PAGE_SIZE, Page, put_u16};

/// Puts the counts into the header.
pub(crate) fn set_counts(page: &mut Page, slots: u16, free_count: u16, free_from: u16)
    ensures header { header_of page.new.bytes ≡ with_counts slots free_count free_from (header_of page.old.bytes) }
    ensures front { take 20 page.new.bytes ≡ take 20 page.old.bytes }
    ensures behind { drop 26 page.new.bytes ≡ drop 26 page.old.bytes }
{
    put_u16(page, 20, slots);
    put_u16(page, 22, free_count);
    put_u16(page, 24, free_from);
}

/// Puts an offset into a slot.
pub(crate) fn put_slot(page: &mut Page, slot: u16, at: u16)
    requires { slot < slot_limit }
    ensures { PutsSlot slot at page.old.bytes page.new.bytes }
{
    put_u16(page, 8190 - 2 * slot as usize, at);
}

/// Puts the bytes of a row at an offset.
pub(crate) fn put_row(page: &mut Page, at: u16, row: &[u8])
    requires { at + length row.now ≤ PAGE_SIZE }
    ensures { PutsRow at row.now page.old.bytes page.new.bytes }
{
    let at = at as usize;
    page.bytes[at..at + row.len()].copy_from_slice(row);
}

/// Moves slot i and the later ones on by one, and puts an offset into slot i.
pub(crate) fn open_slot(page: &mut Page, i: u16, count: u16, at: u16)
    requires i { i ≤ count }
    requires few { count < slot_limit }
    ensures { OpensSlot i count at page.old.bytes page.new.bytes }
{
    for k in 0..count - i {
        let slot = count - 1 - k;
        let offset = slot_at(page, slot);
        put_slot(page, slot + 1, offset);
    }
    put_slot(page, i, at);
}

/// Moves the slots behind slot i back by one, and clears the last.
pub(crate) fn close_slot(page: &mut Page, i: u16, count: u16)
    requires i { i < count }
    requires few { count ≤ slot_limit }
    ensures { ClosesSlot i count page.old.bytes page.new.bytes }
{
    for slot in i + 1..count {
        let offset = slot_at(page, slot);
        put_slot(page, slot - 1, offset);
    }
    put_slot(page, count - 1, 0);
}
