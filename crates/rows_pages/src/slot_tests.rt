// The page test with its first fault, and rows that go in and out of a page.
ghost use Rattle.std.specs.Prelude.{◌≡◌, IsTrue};
ghost use Rattle.spec_rows.specs.Rows as rows;
ghost use Rattle.spec_rows.specs.PageTest.{PassesTest};
ghost use Rattle.spec_file.specs.declared.data.Kind.TheVariants.{Heap};

use crate::made::{HEADER, ROW, are_all, expect, put_page};
use pg_base::{Header, Kind, ObjId, Page, PageNo, put_u16, read_header, u16_at, write_header};
use pg_slots::{NoRoom, SlotFault, compact, insert_at, remove_at, replace_at, test_page};
use std::process::Abort;
use std::test::Fail;

fn shows_row(page: &Page) -> bool {
    match test_page(page, PageNo(10), ObjId(1), Kind::Heap) {
        Ok(view) => view.count() == 1 && view.row(0) == &ROW[..],
        Err(_) => false,
    }
}

// The first fault of a page is this one.
fn expect_fault(rt: &impl Abort, page: &Page, fault: &Option<SlotFault>) {
    assert_eq!(rt;
        test_page(page, PageNo(10), ObjId(1), Kind::Heap).err(),
        *fault
    );
}

#[test]
fn a_page_shows_its_rows(rt: HostRuntime) -> Result<(), Fail> {
    let mut page = Page::zeroed(rt.alloc())?;
    put_page(&mut page, &HEADER, 96);
    expect(&rt, shows_row(&page));
    Ok(())
}

static HEADER_CASES: [(Header, Option<SlotFault>); 11] = [
    (
        Header {
            page_id: PageNo(11),
            ..HEADER
        },
        Some(SlotFault {
            number: 8909,
            other: 0,
            slot: 0,
            value: 11,
        }),
    ),
    (
        Header {
            page_type: 2,
            ..HEADER
        },
        Some(SlotFault {
            number: 8938,
            other: 0,
            slot: 0,
            value: 2,
        }),
    ),
    (
        Header {
            object: ObjId(2),
            level: 1,
            ..HEADER
        },
        Some(SlotFault {
            number: 2534,
            other: 2,
            slot: 0,
            value: 0,
        }),
    ),
    (
        Header { level: 1, ..HEADER },
        Some(SlotFault {
            number: 8939,
            other: 0,
            slot: 0,
            value: 2,
        }),
    ),
    (
        Header {
            next: PageNo(9),
            ..HEADER
        },
        Some(SlotFault {
            number: 8939,
            other: 0,
            slot: 0,
            value: 4,
        }),
    ),
    (
        Header {
            free_from: 8191,
            ..HEADER
        },
        Some(SlotFault {
            number: 8939,
            other: 0,
            slot: 0,
            value: 5,
        }),
    ),
    (
        Header {
            ghosts: 1,
            ..HEADER
        },
        Some(SlotFault {
            number: 8939,
            other: 0,
            slot: 0,
            value: 6,
        }),
    ),
    (
        Header {
            free_from: 98,
            ..HEADER
        },
        Some(SlotFault {
            number: 8941,
            other: 0,
            slot: 0,
            value: 96,
        }),
    ),
    (
        Header {
            free_from: 107,
            ..HEADER
        },
        Some(SlotFault {
            number: 8943,
            other: 0,
            slot: 0,
            value: 108,
        }),
    ),
    (
        Header {
            free_count: 8081,
            ..HEADER
        },
        Some(SlotFault {
            number: 8939,
            other: 0,
            slot: 0,
            value: 7,
        }),
    ),
    (HEADER, None),
];

#[test]
fn the_first_fault_of_a_header_is_told(rt: HostRuntime) -> Result<(), Fail> {
    for (header, expected) in HEADER_CASES.iter() {
        let mut page = Page::zeroed(rt.alloc())?;
        put_page(&mut page, header, 96);
        expect_fault(&rt, &page, expected);
    }
    Ok(())
}

static OF_THREE_ROWS: Header = Header {
    slots: 3,
    free_count: 8054,
    free_from: 132,
    ..HEADER
};

static OVERLAP_CASES: [([u16; 3], Option<SlotFault>); 4] = [
    ([96, 108, 120], None),
    ([120, 96, 108], None),
    (
        [120, 108, 108],
        Some(SlotFault {
            number: 8942,
            other: 0,
            slot: 2,
            value: 108,
        }),
    ),
    (
        [96, 96, 120],
        Some(SlotFault {
            number: 8942,
            other: 0,
            slot: 1,
            value: 96,
        }),
    ),
];

// Three rows, whose slots name these offsets.
fn put_rows(page: &mut Page, offsets: &[u16; 3]) {
    write_header(page, &OF_THREE_ROWS);
    for row in 0..3 {
        let at = 96 + 12 * row;
        page.bytes[at..at + 12].copy_from_slice(&ROW);
    }
    put_u16(page, 8190, offsets[0]);
    put_u16(page, 8188, offsets[1]);
    put_u16(page, 8186, offsets[2]);
}

#[test]
fn rows_that_overlap_are_told_in_the_order_of_offsets(rt: HostRuntime) -> Result<(), Fail> {
    for (offsets, expected) in OVERLAP_CASES.iter() {
        let mut page = Page::zeroed(rt.alloc())?;
        put_rows(&mut page, offsets);
        expect_fault(&rt, &page, expected);
    }
    Ok(())
}

// An empty heap page of object 1.
static EMPTY: Header = Header {
    slots: 0,
    free_count: 8096,
    free_from: 96,
    ..HEADER
};

// How many rows the page has, what is free, where the rows end, and where the first begins.
fn expect_counts(rt: &impl Abort, page: &Page, wanted: [u16; 4]) {
    let header = read_header(page);
    let first = u16_at(&page.bytes, 8190);
    let counts = [header.slots, header.free_count, header.free_from, first];
    assert_eq!(rt; counts, wanted);
}

fn passes(page: &Page) -> bool
    ensures { IsTrue result → PassesTest 10 1 Heap page.now.bytes }
{
    test_page(page, PageNo(10), ObjId(1), Kind::Heap).is_ok()
}

fn is_data_row(row: &[u8]) -> bool
    ensures { result ≡ rows.is_data_row row.now }
{
    row.len() >= 11 && row.len() <= 1024 && row[0] == 0x10 && u16_at(row, 1) as usize == row.len()
}

// Whether a row went in; the answer of a page that fails its test is none.
fn put(page: &mut Page, i: u16, row: &[u8]) -> Option<Result<(), NoRoom>> {
    if !passes(page) || !is_data_row(row) || i > read_header(page).slots {
        return None;
    }
    Some(insert_at(page, Kind::Heap, i, row))
}

fn exchange(page: &mut Page, i: u16, row: &[u8]) -> Option<Result<(), NoRoom>> {
    if !passes(page) || !is_data_row(row) || i >= read_header(page).slots {
        return None;
    }
    Some(replace_at(page, Kind::Heap, i, row))
}

fn take(page: &mut Page, i: u16) {
    if passes(page) && i < read_header(page).slots {
        remove_at(page, Kind::Heap, i);
    }
}

fn together(page: &mut Page) {
    if passes(page) {
        compact(page, Kind::Heap);
    }
}

fn expect_put(rt: &impl Abort, page: &mut Page, i: u16, row: &[u8]) {
    expect(rt, put(page, i, row) == Some(Ok(())));
}

// An empty page, and then the row put in twice as its first.
fn put_two(rt: &impl Abort, page: &mut Page) {
    write_header(page, &EMPTY);
    expect_put(rt, page, 0, &ROW);
    expect_counts(rt, page, [1, 8082, 108, 96]);
    expect_put(rt, page, 0, &ROW);
    expect_counts(rt, page, [2, 8068, 120, 108]);
}

// Takes the first of two rows out, and moves the other to its place.
fn take_first(rt: &impl Abort, page: &mut Page) {
    take(page, 0);
    expect_counts(rt, page, [1, 8082, 120, 96]);
    expect(rt, u16_at(&page.bytes, 8188) == 0);
    together(page);
    expect_counts(rt, page, [1, 8082, 108, 96]);
    expect(rt, are_all(&page.bytes[108..120], 0));
}

#[test]
fn rows_go_in_and_out(rt: HostRuntime) -> Result<(), Fail> {
    let mut page = Page::zeroed(rt.alloc())?;
    put_two(&rt, &mut page);
    take_first(&rt, &mut page);
    expect(&rt, exchange(&mut page, 0, &ROW) == Some(Ok(())));
    expect_counts(&rt, &page, [1, 8082, 108, 96]);
    expect(&rt, passes(&page));
    Ok(())
}

// Fills an empty page with seven rows.
fn fill(rt: &impl Abort, page: &mut Page, row: &[u8]) {
    write_header(page, &EMPTY);
    for i in 0..7 {
        expect_put(rt, page, i, row);
    }
}

fn put_where_one_went(rt: &impl Abort, page: &mut Page, row: &[u8]) {
    fill(rt, page, row);
    expect_counts(rt, page, [7, 914, 7264, 96]);
    expect(rt, put(page, 7, row) == Some(Err(NoRoom { free: 914 })));
    expect_counts(rt, page, [7, 914, 7264, 96]);
    take(page, 0);
    take(page, 0);
    expect_put(rt, page, 0, row);
    expect_counts(rt, page, [6, 1940, 6240, 5216]);
}

#[test]
fn a_full_page_takes_no_row_until_one_goes(rt: HostRuntime) -> Result<(), Fail> {
    let mut page = Page::zeroed(rt.alloc())?;
    let mut row = [0; 1024];
    row[0] = 0x10;
    row[2] = 4;
    put_where_one_went(&rt, &mut page, &row);
    Ok(())
}
