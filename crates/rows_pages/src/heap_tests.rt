// One heap page: its test, its room, a row behind its last, and the changes from one state of it to another.
ghost use Rattle.std.specs.Prelude.{◌≤◌};

use crate::made::{HEADER, ROW, are_all, expect, expect_bytes, expect_case, put_page};
use heap_page::{
    byte_change, has_room, heap_row, is_heap_page, page_changes, put_row, with_page_changes,
};
use pg_base::{Header, ObjId, Page, PageNo, put_u16};
use spec_log::Cell;
use spec_plan::Planned;
use std::alloc::Global;
use std::process::Abort;
use std::test::Fail;

// Key 2 and payload `bc`.
static SECOND: [u8; 13] = [0x10, 13, 0, 2, 0, 0, 0, 0, 0, 0, 0, b'b', b'c'];

// Page 10 of object 1 with the first row, which stands at an offset, and zeros elsewhere.
fn made_page(alloc: Global, at: u16) -> Result<Box<Page>, Fail>
    requires { at ≤ 8178 }
{
    let mut page = Page::zeroed(alloc)?;
    let header = Header {
        free_from: at + 12,
        ..HEADER
    };
    put_page(&mut page, &header, at);
    Ok(page)
}

// Puts the row with key 2 and payload `bc` where the page lets it.
fn put_second(page: &mut Page) -> bool {
    let mut bytes = [0; 1024];
    let size = heap_row(2, b"bc", &mut bytes);
    let row = &bytes[..size as usize];
    if !is_heap_page(page, PageNo(10), ObjId(1)) || !has_room(page, size) {
        return false;
    }
    put_row(page, row);
    true
}

fn is_change(change: &Planned, off: u32, before: &[u8], after: &[u8]) -> bool {
    let cell = Cell::Bytes {
        page: PageNo(10),
        off,
    };
    change.cell == cell && change.before.as_slice() == before && change.after.as_slice() == after
}

static OWNER_CASES: [(u32, u32, bool); 3] = [(10, 1, true), (11, 1, false), (10, 2, false)];

#[test]
fn only_its_own_page_passes(rt: HostRuntime) -> Result<(), Fail> {
    let page = made_page(rt.alloc(), 96)?;
    for (p, object, passes) in OWNER_CASES.iter() {
        let is_its_own = is_heap_page(&page, PageNo(*p), ObjId(*object));
        expect_case(&rt, *p, *object, is_its_own == *passes);
    }
    Ok(())
}

#[test]
fn a_row_needs_room_for_its_slot(rt: HostRuntime) -> Result<(), Fail> {
    let mut page = made_page(rt.alloc(), 96)?;
    expect(&rt, has_room(&page, 8080) && !has_room(&page, 8081));
    put_u16(&mut page, 22, 8083);
    expect(&rt, !is_heap_page(&page, PageNo(10), ObjId(1)));
    Ok(())
}

static COUNTS_OF_BOTH: [u8; 6] = [2, 0, 0x83, 0x1f, 121, 0];

static SLOTS_OF_BOTH: [u8; 4] = [108, 0, 96, 0];

fn expect_both(rt: &impl Abort, page: &Page) {
    expect_bytes(rt, &page.bytes[20..26], &COUNTS_OF_BOTH);
    expect_bytes(rt, &page.bytes[96..108], &ROW);
    expect_bytes(rt, &page.bytes[108..121], &SECOND);
    expect_bytes(rt, &page.bytes[8188..], &SLOTS_OF_BOTH);
    expect(rt, are_all(&page.bytes[121..8188], 0));
}

static COUNTS_BEFORE: [u8; 5] = [1, 0, 0x92, 0x1f, 108];

static COUNTS_AFTER: [u8; 5] = [2, 0, 0x83, 0x1f, 121];

fn are_three_changes(changes: &[Planned]) -> bool {
    changes.len() == 3
        && is_change(&changes[0], 108, &[0; 13], &SECOND)
        && is_change(&changes[1], 8188, &[0], &[108])
        && is_change(&changes[2], 20, &COUNTS_BEFORE, &COUNTS_AFTER)
}

fn makes_three_changes(alloc: Global, old: &Page, new: &Page) -> Result<bool, Fail> {
    Ok(are_three_changes(&page_changes(alloc, PageNo(10), old, new, 2)?))
}

#[test]
fn a_row_behind_the_last_changes_three_parts(rt: HostRuntime) -> Result<(), Fail> {
    let old = made_page(rt.alloc(), 96)?;
    let mut new = made_page(rt.alloc(), 96)?;
    expect(&rt, put_second(&mut new));
    expect_both(&rt, &new);
    expect(&rt, makes_three_changes(rt.alloc(), &old, &new)?);
    expect(&rt, is_heap_page(&new, PageNo(10), ObjId(1)));
    Ok(())
}

#[test]
fn rows_move_together_where_a_row_needs_it(rt: HostRuntime) -> Result<(), Fail> {
    let mut page = made_page(rt.alloc(), 8166)?;
    expect(&rt, put_second(&mut page));
    expect_both(&rt, &page);
    Ok(())
}

fn keeps_byte(alloc: Global) -> Result<bool, Fail> {
    Ok(byte_change(alloc, PageNo(10), 106, 0x61, 0x61)?.is_empty())
}

fn changes_byte(alloc: Global, page: &Page) -> Result<bool, Fail> {
    let changed = byte_change(alloc, PageNo(10), 106, 0x60, 0x61)?;
    let all = with_page_changes(alloc, changed, PageNo(10), page, page, 2)?;
    Ok(all.len() == 1 && is_change(&all[0], 106, &[0x60], &[0x61]))
}

#[test]
fn a_byte_is_changed_only_where_it_changes(rt: HostRuntime) -> Result<(), Fail> {
    let page = made_page(rt.alloc(), 96)?;
    expect(&rt, keeps_byte(rt.alloc())?);
    expect(&rt, changes_byte(rt.alloc(), &page)?);
    Ok(())
}
