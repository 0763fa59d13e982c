// The tests of a page's header, in their order.
ghost use Rattle.std.specs.Prelude.{◌≡◌};
ghost use Rattle.spec_rows.specs.PageTest as spec;

use crate::SlotFault;
use pg_base::{DATA_TYPE, Header, INDEX_TYPE, Kind, MAPS_START, ObjId, PAGE_SIZE, PageNo};
use spec_rows::SLOT_LIMIT;

pub(crate) fn fault(number: u32, slot: u32, value: u64) -> SlotFault
    ensures { result ≡ spec.fault number slot value }
{
    SlotFault {
        number,
        other: 0,
        slot,
        value,
    }
}

/// Whose page it is: the first of three tests that fails.
pub(crate) fn owner_fault(
    header: &Header,
    p: PageNo,
    object: ObjId,
    kind: Kind,
) -> Option<SlotFault>
    ensures { result ≡ spec.owner_fault p.0 object.0 kind header.now }
{
    if header.page_id != p {
        return Some(fault(8909, 0, header.page_id.0 as u64));
    }
    if !has_row_type(header, kind) {
        return Some(fault(8938, 0, header.page_type as u64));
    }
    if header.object != object {
        return Some(SlotFault {
            number: 2534,
            other: header.object.0,
            slot: 0,
            value: 0,
        });
    }
    None
}

/// How the page is made: the number of the first of six tests that fails.
pub(crate) fn form_fault(header: &Header, version: u8, kind: Kind) -> Option<SlotFault>
    ensures { result ≡ spec.form_fault kind version header.now }
{
    if version != 1 {
        return Some(fault(8939, 0, 1));
    }
    if !has_level(header) {
        return Some(fault(8939, 0, 2));
    }
    if !has_rows(header) {
        return Some(fault(8939, 0, 3));
    }
    if !has_links(header, kind) {
        return Some(fault(8939, 0, 4));
    }
    if !has_room(header) {
        return Some(fault(8939, 0, 5));
    }
    if header.ghosts != 0 {
        return Some(fault(8939, 0, 6));
    }
    None
}

fn has_row_type(header: &Header, kind: Kind) -> bool
    ensures { result ≡ spec.has_row_type kind header.now }
{
    if kind.is_clustered() {
        header.page_type == DATA_TYPE || header.page_type == INDEX_TYPE
    } else {
        header.page_type == DATA_TYPE
    }
}

fn has_level(header: &Header) -> bool
    ensures { result ≡ spec.has_level header.now }
{
    if header.page_type == DATA_TYPE {
        header.level == 0
    } else {
        header.level >= 1 && header.level <= 15
    }
}

fn has_rows(header: &Header) -> bool
    ensures { result ≡ spec.has_rows header.now }
{
    !(header.page_type == INDEX_TYPE && header.slots == 0)
}

fn has_links(header: &Header, kind: Kind) -> bool
    ensures { result ≡ spec.has_links kind header.now }
{
    if kind.is_clustered() {
        true
    } else {
        header.prev.0 == 0 && header.next.0 == 0
    }
}

// The rows end between the header and the slots.
fn has_room(header: &Header) -> bool
    ensures { result ≡ spec.has_room header.now }
{
    header.slots <= SLOT_LIMIT
        && header.free_from as usize >= MAPS_START
        && header.free_from as usize + 2 * header.slots as usize <= PAGE_SIZE
}
