// The rows of the catalog, and an IAM page.
ghost use Rattle.std.specs.Prelude.{◌<◌};

use crate::made::{expect, expect_bytes, expect_case};
use db_cat::{
    CatRow, CatStop, add, catalog_passes, entry_of, free_entry, free_id, may_enter, read_catalog,
    remove,
};
use pg_base::{Geometry, Kind, ObjId, Page, PageNo, put_u32};
use pg_iam::{IamView, make_iam, set_mark, set_slot, test_iam};
use std::alloc::Global;
use std::test::Fail;

// Puts a clustered table with first IAM page 8 and root 10 into an entry.
fn put_entry(page: &mut Page, at: usize, id: u32, name: u8)
    requires { at < 8000 }
{
    put_u32(page, at, id);
    page.bytes[at + 4] = 2;
    page.bytes[at + 5] = 1;
    page.bytes[at + 6] = name;
    put_u32(page, at + 24, 8);
    put_u32(page, at + 28, 10);
}

fn is_row(row: &CatRow, id: u32, name: &str) -> bool {
    row.id == ObjId(id)
        && row.kind == Kind::Clustered
        && row.name.as_str() == name
        && row.first_iam == PageNo(8)
        && row.root == PageNo(10)
}

fn has_no_rows(alloc: Global, page: &Page) -> Result<bool, Fail> {
    Ok(read_catalog(alloc, page)?.is_empty())
}

fn has_both_rows(alloc: Global, page: &Page) -> Result<bool, Fail> {
    let rows = read_catalog(alloc, page)?;
    Ok(rows.len() == 2 && is_row(&rows[0], 2, "t") && is_row(&rows[1], 1, "s"))
}

#[test]
fn rows_stand_in_the_order_of_their_entries(rt: HostRuntime) -> Result<(), Fail> {
    let mut page = Page::zeroed(rt.alloc())?;
    expect(&rt, has_no_rows(rt.alloc(), &page)?);
    put_entry(&mut page, 96, 2, b't');
    put_entry(&mut page, 96 + 40 * 127, 1, b's');
    expect(&rt, has_both_rows(rt.alloc(), &page)?);
    Ok(())
}

static SECOND_CASES: [(u32, u8, bool); 6] = [
    (1, b's', true),
    (2, b's', false),
    (1, b't', false),
    (0, b's', false),
    (1, b'S', false),
    (1, b'9', false),
];

#[test]
fn bad_catalogs_are_told(rt: HostRuntime) -> Result<(), Fail> {
    for (id, name, passes) in SECOND_CASES.iter() {
        let mut page = Page::zeroed(rt.alloc())?;
        put_entry(&mut page, 96, 2, b't');
        put_entry(&mut page, 136, *id, *name);
        expect_case(&rt, *id, u32::from(*name), catalog_passes(&page) == *passes);
    }
    Ok(())
}

fn is_bad(alloc: Global, page: &Page) -> bool {
    match read_catalog(alloc, page) {
        Ok(_) => false,
        Err(stop) => stop == CatStop::Bad,
    }
}

#[test]
fn a_bad_catalog_is_not_read(rt: HostRuntime) -> Result<(), Fail> {
    let mut page = Page::zeroed(rt.alloc())?;
    page.bytes[136] = 1;
    expect(&rt, is_bad(rt.alloc(), &page));
    Ok(())
}

fn heap(alloc: Global, id: u32, name: &str) -> Result<CatRow, Fail> {
    Ok(CatRow {
        id: ObjId(id),
        kind: Kind::Heap,
        name: String::from_str(alloc, name)?,
        first_iam: PageNo(8),
        root: PageNo(0),
    })
}

// Whether the row is added; none where it may not be.
fn adds(page: &mut Page, row: &CatRow) -> Option<bool> {
    if !may_enter(page, row) {
        return None;
    }
    Some(add(page, row).is_ok())
}

// Whether an entry is emptied; none in a bad catalog.
fn removes(page: &mut Page, id: u32) -> Option<bool> {
    if !catalog_passes(page) {
        return None;
    }
    Some(remove(page, ObjId(id)))
}

fn smallest_id(alloc: Global, page: &Page) -> Result<u32, Fail> {
    let rows = read_catalog(alloc, page)?;
    if rows.len() > 128 {
        return Ok(0);
    }
    Ok(free_id(&rows).0)
}

static HEAP_T: [u8; 40] = [
    1, 0, 0, 0, 1, 1, b't', 0, 0, 0, 0, 0, 0, 0, 0, 0, 0, 0, 0, 0, 0, 0, 0, 0, 8, 0, 0, 0, 0, 0, 0,
    0, 0, 0, 0, 0, 0, 0, 0, 0,
];

#[test]
fn an_entry_is_put_and_emptied(rt: HostRuntime) -> Result<(), Fail> {
    let mut page = Page::zeroed(rt.alloc())?;
    let t = heap(rt.alloc(), 1, "t")?;
    expect(&rt, adds(&mut page, &t) == Some(true));
    expect_bytes(&rt, &page.bytes[96..136], &HEAP_T);
    expect(&rt, adds(&mut page, &t) == None);
    expect(
        &rt,
        adds(&mut page, &heap(rt.alloc(), 2, "a_9")?) == Some(true),
    );
    expect_bytes(
        &rt,
        &page.bytes[136..146],
        &[2, 0, 0, 0, 1, 3, b'a', b'_', b'9', 0],
    );
    expect(
        &rt,
        removes(&mut page, 1) == Some(true) && removes(&mut page, 1) == Some(false),
    );
    expect_bytes(&rt, &page.bytes[96..136], &[0; 40]);
    Ok(())
}

#[test]
fn the_lowest_entry_and_the_smallest_id_are_free(rt: HostRuntime) -> Result<(), Fail> {
    let mut page = Page::zeroed(rt.alloc())?;
    expect(&rt, smallest_id(rt.alloc(), &page)? == 1);
    put_entry(&mut page, 96, 1, b't');
    put_entry(&mut page, 176, 3, b's');
    expect(
        &rt,
        free_entry(&page) == Some(1) && smallest_id(rt.alloc(), &page)? == 2,
    );
    expect(
        &rt,
        entry_of(&page, ObjId(3)) == Some(2) && entry_of(&page, ObjId(2)) == None,
    );
    Ok(())
}

static FORM_CASES: [(u32, &str, Option<bool>); 5] = [
    (1, "a123456789012345", Some(true)),
    (1, "a1234567890123456", None),
    (0, "t", None),
    (1, "", None),
    (1, "T", None),
];

#[test]
fn only_rows_may_enter(rt: HostRuntime) -> Result<(), Fail> {
    for (id, name, wanted) in FORM_CASES.iter() {
        let mut page = Page::zeroed(rt.alloc())?;
        let row = heap(rt.alloc(), *id, name)?;
        expect_case(
            &rt,
            *id,
            name.len() as u32,
            adds(&mut page, &row) == *wanted,
        );
    }
    Ok(())
}

// 128 objects, with ids from 1 and names of two letters.
fn fill_catalog(page: &mut Page) {
    for i in 0..128 {
        put_entry(page, 96 + 40 * i, i as u32 + 1, b'a' + (i / 16) as u8);
        page.bytes[96 + 40 * i + 5] = 2;
        page.bytes[96 + 40 * i + 7] = b'a' + (i % 16) as u8;
    }
}

#[test]
fn a_full_catalog_gets_no_more(rt: HostRuntime) -> Result<(), Fail> {
    let mut page = Page::zeroed(rt.alloc())?;
    fill_catalog(&mut page);
    expect(
        &rt,
        free_entry(&page) == None && smallest_id(rt.alloc(), &page)? == 129,
    );
    expect(
        &rt,
        adds(&mut page, &heap(rt.alloc(), 129, "t")?) == Some(false),
    );
    expect(
        &rt,
        catalog_passes(&page) && removes(&mut page, 128) == Some(true),
    );
    expect(
        &rt,
        adds(&mut page, &heap(rt.alloc(), 129, "t")?) == Some(true),
    );
    Ok(())
}

fn fill_iam(page: &mut Page) {
    make_iam(page, PageNo(8), ObjId(3), 1, 2, PageNo(7));
    set_slot(page, 7, PageNo(520));
    set_mark(page, 9, true);
}

fn is_view(view: &IamView) -> bool {
    view.object == ObjId(3)
        && view.interval == 1
        && view.sequence == 2
        && view.prev == PageNo(7)
        && view.next == PageNo(0)
        && view.marks(9)
        && !view.marks(8)
        && view.slots().contains(&PageNo(520))
}

// Whether an IAM page shows what was put; none where it is no IAM page.
fn shows(page: &Page, p: u32, pages: u32) -> Option<bool> {
    match test_iam(page, PageNo(p), Geometry::Small, pages) {
        Some(view) => Some(is_view(&view)),
        None => None,
    }
}

static SLOT_AND_MARKS: [u8; 6] = [8, 2, 0, 0, 0, 2];

#[test]
fn an_iam_page_shows_what_was_put(rt: HostRuntime) -> Result<(), Fail> {
    let mut page = Page::zeroed(rt.alloc())?;
    fill_iam(&mut page);
    expect_bytes(&rt, &page.bytes[132..138], &SLOT_AND_MARKS);
    expect(
        &rt,
        shows(&page, 8, 512) == None && shows(&page, 9, 520) == None,
    );
    expect(&rt, shows(&page, 8, 520) == Some(true));
    Ok(())
}
