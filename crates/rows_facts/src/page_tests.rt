// The errors, facts and rows of one page, which is page 10.
ghost use Rattle.std.specs.Prelude.{◌<◌, ◌≤◌};

use crate::made::{HEAP, MadeRow, WRONG, catalog_row, expect_errors};
use ck_facts::{CheckError, Fact, PageFacts, facts_of_page};
use pg_base::{Header, Kind, NoMemory, ObjId, Page, PageNo, put_u16, put_u32, write_header};
use spec_tree::{IndexRow, PageHead};
use std::alloc::Global;
use std::process::Abort;
use std::test::Fail;

// Page 10 of object 1, a data page without rows.
const EMPTY: Header = Header {
    page_type: 1,
    level: 0,
    page_id: PageNo(10),
    object: ObjId(1),
    prev: PageNo(0),
    next: PageNo(0),
    slots: 0,
    free_count: 8096,
    free_from: 96,
    ghosts: 0,
};

// What it says of itself.
const EMPTY_HEAD: PageHead = PageHead {
    object: ObjId(1),
    page: PageNo(10),
    level: 0,
    prev: PageNo(0),
    next: PageNo(0),
    first: None,
    last: None,
    last_child: PageNo(0),
};

// An error of that page, which object 1 owns.
const SHOWN: CheckError = CheckError { page: 10, ..WRONG };

static A_HEAP: MadeRow = MadeRow { root: 10, ..HEAP };

static A_TABLE: MadeRow = MadeRow {
    kind: Kind::Clustered,
    root: 10,
    ..HEAP
};

// What the page shows where it is of this object and has this PFS byte.
fn shown(alloc: Global, page: &Page, object: &MadeRow, pfs: u8) -> Result<PageFacts, NoMemory> {
    facts_of_page(alloc, page, PageNo(10), &catalog_row(alloc, object)?, pfs)
}

fn expect_facts(rt: &impl Abort, shown: &PageFacts, wanted: &[Fact]) {
    assert_eq!(rt; shown.facts.as_slice(), wanted);
}

fn expect_rows(rt: &impl Abort, shown: &PageFacts, rows: u64, seen: bool) {
    assert_eq!(rt; (shown.rows, shown.seen), (rows, seen));
}

fn put_data_row(page: &mut Page, slot: usize, at: usize, size: u16, key: u8)
    requires at { at < 8000 }
    requires slot { slot < 100 }
{
    page.bytes[at] = 0x10;
    put_u16(page, at + 1, size);
    page.bytes[at + 3] = key;
    put_u16(page, 8190 - 2 * slot, at as u16);
}

fn put_index_row(page: &mut Page, slot: usize, at: usize, key: u8, child: u32)
    requires at { at < 8000 }
    requires slot { slot < 100 }
{
    page.bytes[at] = 0x06;
    page.bytes[at + 1] = key;
    put_u32(page, at + 9, child);
    put_u16(page, 8190 - 2 * slot, at as u16);
}

// Six rows of 1,024 bytes, and a seventh.
fn fill(page: &mut Page, last: u16)
    requires { last ≤ 1024 }
{
    let header = Header {
        slots: 7,
        free_count: 8096 - 6 * 1026 - 2 - last,
        free_from: 6240 + last,
        ..EMPTY
    };
    write_header(page, &header);
    for slot in 0..6 {
        put_data_row(page, slot, 96 + 1024 * slot, 1024, slot as u8 + 1);
    }
    put_data_row(page, 6, 6240, last, 7);
}

// How long the last row is, the PFS byte, and the errors.
type FullnessCase = (u16, u8, &'static [CheckError]);

static FULLNESS_CASES: [FullnessCase; 4] = [
    (318, 0x62, &[]),
    (
        318,
        0x63,
        &[CheckError {
            number: 8914,
            value: 99,
            ..SHOWN
        }],
    ),
    (319, 0x63, &[]),
    (
        319,
        0x62,
        &[CheckError {
            number: 8914,
            value: 98,
            ..SHOWN
        }],
    ),
];

static SEVEN_ROWS: [Fact; 1] = [Fact::Seen(PageHead {
    first: Some(1),
    last: Some(7),
    ..EMPTY_HEAD
})];

fn expect_fullness(
    rt: &impl Abort,
    alloc: Global,
    last: u16,
    pfs: u8,
    wanted: &[CheckError],
) -> Result<(), NoMemory>
    requires { last ≤ 1024 }
{
    let mut page = Page::zeroed(alloc)?;
    fill(&mut page, last);
    let shown = shown(alloc, &page, &A_HEAP, pfs)?;
    expect_rows(rt, &shown, 7, true);
    expect_errors(rt, shown.errors.as_slice(), wanted, "fullness");
    expect_facts(rt, &shown, &SEVEN_ROWS);
    Ok(())
}

#[test]
fn a_heap_page_has_the_fullness_of_its_rows(rt: HostRuntime) -> Result<(), Fail> {
    for (last, pfs, wanted) in FULLNESS_CASES.iter() {
        assert!(rt; *last <= 1024);
        expect_fullness(&rt, rt.alloc(), *last, *pfs, wanted)?;
    }
    Ok(())
}

static FOUR_ROWS: Header = Header {
    slots: 4,
    free_count: 8096 - 4 * 14,
    free_from: 96 + 4 * 12,
    ..EMPTY
};

// Four rows with keys 5, 5, 3 and 8.
fn put_keys_out_of_order(page: &mut Page) {
    write_header(page, &FOUR_ROWS);
    put_data_row(page, 0, 96, 12, 5);
    put_data_row(page, 1, 108, 12, 5);
    put_data_row(page, 2, 120, 12, 3);
    put_data_row(page, 3, 132, 12, 8);
}

static OUT_OF_ORDER: [CheckError; 2] = [
    CheckError {
        number: 2511,
        slot: 1,
        value: 5,
        ..SHOWN
    },
    CheckError {
        number: 2511,
        slot: 2,
        value: 3,
        ..SHOWN
    },
];

#[test]
fn keys_out_of_order_are_told_in_a_clustered_table(rt: HostRuntime) -> Result<(), Fail> {
    let mut page = Page::zeroed(rt.alloc())?;
    put_keys_out_of_order(&mut page);
    let in_table = shown(rt.alloc(), &page, &A_TABLE, 0x40)?;
    expect_errors(&rt, in_table.errors.as_slice(), &OUT_OF_ORDER, "table");
    expect_rows(&rt, &in_table, 4, true);
    let in_heap = shown(rt.alloc(), &page, &A_HEAP, 0x41)?;
    expect_errors(&rt, in_heap.errors.as_slice(), &[], "heap");
    Ok(())
}

static INDEX_HEADER: Header = Header {
    page_type: 2,
    level: 1,
    prev: PageNo(20),
    next: PageNo(21),
    slots: 2,
    free_count: 8096 - 2 * 15,
    free_from: 96 + 2 * 13,
    ..EMPTY
};

// The row that names page 12.
const FIRST_ROW: IndexRow = IndexRow {
    object: ObjId(1),
    parent: PageNo(10),
    slot: 0,
    level: 1,
    key: 0,
    next_key: Some(7),
    child: PageNo(12),
    before: PageNo(0),
    parent_prev: PageNo(20),
    parent_next: PageNo(21),
};

static INDEX_FACTS: [Fact; 3] = [
    Fact::Seen(PageHead {
        level: 1,
        prev: PageNo(20),
        next: PageNo(21),
        first: Some(0),
        last: Some(7),
        last_child: PageNo(13),
        ..EMPTY_HEAD
    }),
    Fact::Child(FIRST_ROW),
    Fact::Child(IndexRow {
        slot: 1,
        key: 7,
        next_key: None,
        child: PageNo(13),
        before: PageNo(12),
        ..FIRST_ROW
    }),
];

// Level 1, with rows that name pages 12 and 13.
#[test]
fn an_index_page_shows_each_of_its_rows(rt: HostRuntime) -> Result<(), Fail> {
    let mut page = Page::zeroed(rt.alloc())?;
    write_header(&mut page, &INDEX_HEADER);
    put_index_row(&mut page, 0, 96, 0, 12);
    put_index_row(&mut page, 1, 109, 7, 13);
    let shown = shown(rt.alloc(), &page, &A_TABLE, 0x40)?;
    expect_facts(&rt, &shown, &INDEX_FACTS);
    expect_errors(&rt, shown.errors.as_slice(), &[], "index page");
    expect_rows(&rt, &shown, 0, true);
    Ok(())
}

static OF_ANOTHER: Header = Header {
    object: ObjId(2),
    ..EMPTY
};

static OWNED_BY_ANOTHER: [CheckError; 1] = [CheckError {
    number: 2534,
    other: 2,
    ..SHOWN
}];

#[test]
fn a_page_of_another_object_shows_only_its_fault(rt: HostRuntime) -> Result<(), Fail> {
    let mut page = Page::zeroed(rt.alloc())?;
    write_header(&mut page, &OF_ANOTHER);
    let shown = shown(rt.alloc(), &page, &A_HEAP, 0x43)?;
    expect_errors(&rt, shown.errors.as_slice(), &OWNED_BY_ANOTHER, "another's");
    expect_facts(&rt, &shown, &[]);
    expect_rows(&rt, &shown, 0, false);
    Ok(())
}

static ONLY_A_HEAD: [Fact; 1] = [Fact::Seen(EMPTY_HEAD)];

#[test]
fn an_empty_leaf_has_no_first_and_no_last_key(rt: HostRuntime) -> Result<(), Fail> {
    let mut page = Page::zeroed(rt.alloc())?;
    write_header(&mut page, &EMPTY);
    let shown = shown(rt.alloc(), &page, &A_TABLE, 0x40)?;
    expect_facts(&rt, &shown, &ONLY_A_HEAD);
    expect_errors(&rt, shown.errors.as_slice(), &[], "empty leaf");
    expect_rows(&rt, &shown, 0, true);
    Ok(())
}
