// The images under a log, and its rules, as the plain program computes them.
use crate::expect::{expect_named, expect_same};
use plain_log::{
    PlainImage, committed_image, damaged_page, final_image, first_broken, start_image,
};
use spec_file::{ExtentNo, Geometry, Lsn, PageNo, Resource, Tran};
use spec_log::{Cell, Record, Values};
use std::alloc::Global;
use std::process::Abort;

// An item of a log, as the tests write it: first its transaction.
enum Step {
    Start(u64, &'static [Resource]),
    Change(u64, Cell, &'static [u8], &'static [u8]),
    Undo(u64, u64),
    Commit(u64),
    Abort(u64),
    Snap(u16, u32),
}

fn start(rt: &impl Abort, alloc: Global, tran: u64, takes: &[Resource]) -> Record {
    Record::Start {
        session: 1,
        index: 1,
        tran: Tran(tran),
        number: 0,
        changes: 0,
        size: 0,
        takes: Values::copied(alloc, takes).expect(rt, "memory"),
    }
}

fn change(
    rt: &impl Abort,
    alloc: Global,
    tran: u64,
    cell: Cell,
    before: &[u8],
    after: &[u8],
) -> Record {
    Record::Change {
        tran: Tran(tran),
        cell,
        before: Values::copied(alloc, before).expect(rt, "memory"),
        after: Values::copied(alloc, after).expect(rt, "memory"),
    }
}

fn item_of(rt: &impl Abort, alloc: Global, step: &Step) -> Record {
    match step {
        Step::Start(tran, takes) => start(rt, alloc, *tran, takes),
        Step::Change(tran, cell, before, after) => change(rt, alloc, *tran, *cell, before, after),
        Step::Undo(tran, change) => Record::Undo {
            tran: Tran(*tran),
            change: Lsn(*change),
        },
        Step::Commit(tran) => Record::Commit { tran: Tran(*tran) },
        Step::Abort(tran) => Record::Abort { tran: Tran(*tran) },
        Step::Snap(session, index) => Record::Snap {
            session: *session,
            index: *index,
        },
    }
}

fn log_of(rt: &impl Abort, alloc: Global, steps: &[Step]) -> Vec<Record> {
    let mut items = Vec::new(alloc);
    for step in steps {
        items.push(item_of(rt, alloc, step)).expect(rt, "memory");
    }
    items
}

// One page of these bytes.
fn one_page(rt: &impl Abort, alloc: Global, bytes: &[u8]) -> PlainImage {
    let page = Values::copied(alloc, bytes).expect(rt, "memory");
    PlainImage::of(vec![in alloc; page].expect(rt, "memory"))
}

fn expect_page(rt: &impl Abort, image: &PlainImage, wanted: &[u8]) {
    let is_same = image.count() == 1 && image.page(0) == wanted;
    assert!(rt; is_same);
}

fn expect_start(rt: &impl Abort, alloc: Global, opened: &[Step], bytes: &[u8], wanted: &[u8]) {
    let opened = log_of(rt, alloc, opened);
    let image = start_image(alloc, &opened, one_page(rt, alloc, bytes)).expect(rt, "memory");
    expect_page(rt, &image, wanted);
}

fn expect_committed(
    rt: &impl Abort,
    alloc: Global,
    opened: &[Step],
    log: &[Step],
    bytes: &[u8],
    wanted: &[u8],
) {
    let opened = log_of(rt, alloc, opened);
    let log = log_of(rt, alloc, log);
    let page = one_page(rt, alloc, bytes);
    let image = committed_image(alloc, &opened, &log, page).expect(rt, "memory");
    expect_page(rt, &image, wanted);
}

fn expect_final(rt: &impl Abort, alloc: Global, items: &[Step], bytes: &[u8], wanted: &[u8]) {
    let items = log_of(rt, alloc, items);
    let image = final_image(alloc, &items, 0, one_page(rt, alloc, bytes)).expect(rt, "memory");
    expect_page(rt, &image, wanted);
}

fn expect_damage(
    rt: &impl Abort,
    alloc: Global,
    opened: &[Step],
    bytes: &[u8],
    wanted: Option<PageNo>,
) {
    let opened = log_of(rt, alloc, opened);
    let found = damaged_page(alloc, &opened, one_page(rt, alloc, bytes)).expect(rt, "memory");
    expect_same(rt, &found, &wanted);
}

// Bytes 0 and 1 of the images' page.
const BYTE_0: Cell = Cell::Bytes {
    page: PageNo(0),
    off: 0,
};

const BYTE_1: Cell = Cell::Bytes {
    page: PageNo(0),
    off: 1,
};

static LEFT_OPEN: [Step; 2] = [Step::Start(1, &[]), Step::Change(1, BYTE_0, &[0], &[97])];

static NEXT_LOG: [Step; 3] = [
    Step::Start(2, &[]),
    Step::Change(2, BYTE_1, &[0], &[98]),
    Step::Commit(2),
];

#[test]
fn what_was_left_open_is_in_the_file_alone(rt: HostRuntime) {
    expect_start(&rt, rt.alloc(), &LEFT_OPEN, &[97, 0, 7], &[0, 0, 7]);
    expect_committed(
        &rt,
        rt.alloc(),
        &LEFT_OPEN,
        &NEXT_LOG,
        &[97, 0, 7],
        &[0, 98, 7],
    );
}

static HALF_BACK: [Step; 4] = [
    Step::Start(1, &[]),
    Step::Change(1, BYTE_0, &[0], &[1]),
    Step::Change(1, BYTE_1, &[0], &[2]),
    Step::Undo(1, 3),
];

#[test]
fn a_rollback_half_done_is_half_in_the_file(rt: HostRuntime) {
    expect_final(&rt, rt.alloc(), &HALF_BACK, &[0, 0, 7], &[1, 0, 7]);
    expect_committed(&rt, rt.alloc(), &[], &HALF_BACK, &[0, 0, 7], &[0, 0, 7]);
}

// What stands before the first Snap, and before the second.
static BEFORE_FIRST: [Step; 2] = [Step::Start(1, &[]), Step::Change(1, BYTE_0, &[0], &[1])];

static BEFORE_SECOND: [Step; 4] = [
    Step::Start(1, &[]),
    Step::Change(1, BYTE_0, &[0], &[1]),
    Step::Snap(2, 1),
    Step::Commit(1),
];

#[test]
fn two_snaps_see_what_had_committed_before_each(rt: HostRuntime) {
    expect_committed(&rt, rt.alloc(), &[], &BEFORE_FIRST, &[0, 7], &[0, 7]);
    expect_committed(&rt, rt.alloc(), &[], &BEFORE_SECOND, &[0, 7], &[1, 7]);
}

static TURNED: [Step; 2] = [
    Step::Start(1, &[]),
    Step::Change(
        1,
        Cell::Bit {
            page: PageNo(0),
            n: 3,
        },
        &[0],
        &[1],
    ),
];

#[test]
fn a_bit_turns_alone(rt: HostRuntime) {
    let mut wanted = [5; 98];
    wanted[96] = 13;
    expect_final(&rt, rt.alloc(), &TURNED, &[5; 98], &wanted);
}

#[test]
fn a_damaged_cell_is_named_by_its_page(rt: HostRuntime) {
    expect_damage(&rt, rt.alloc(), &LEFT_OPEN, &[97, 7], None);
    expect_damage(&rt, rt.alloc(), &LEFT_OPEN, &[98, 7], Some(PageNo(0)));
}

// The logs are of a small file of two extents: the first is a system extent, and the pages of the second
// are ordinary, but page 9.
const PAGES: u32 = 16;

fn expect_broken(rt: &impl Abort, alloc: Global, log: &[Step], wanted: Option<Lsn>, name: &str) {
    let items = log_of(rt, alloc, log);
    let found = first_broken(Geometry::Small, PAGES, &items);
    expect_named(rt, &found, &wanted, name);
}

const PAGE_8: &[Resource] = &[Resource::Page(PageNo(8))];

const EXTENT_1: &[Resource] = &[Resource::Extent(ExtentNo(1))];

// Bytes 0, 1 and 96 of page 8.
const OF_8: Cell = Cell::Bytes {
    page: PageNo(8),
    off: 0,
};

const NEXT_OF_8: Cell = Cell::Bytes {
    page: PageNo(8),
    off: 1,
};

const ROW_OF_8: Cell = Cell::Bytes {
    page: PageNo(8),
    off: 96,
};

static KEEPING: [(&str, &[Step]); 8] = [
    (
        "it changes a page that it holds",
        &[
            Step::Start(1, PAGE_8),
            Step::Change(1, ROW_OF_8, &[1, 2], &[1, 2]),
            Step::Commit(1),
        ],
    ),
    (
        "it takes what was given back",
        &[
            Step::Start(1, PAGE_8),
            Step::Commit(1),
            Step::Start(2, PAGE_8),
        ],
    ),
    (
        "it holds on in its next statement",
        &[
            Step::Start(1, PAGE_8),
            Step::Start(1, &[]),
            Step::Change(1, OF_8, &[1], &[1]),
        ],
    ),
    (
        "it changes the catalog",
        &[
            Step::Start(1, &[Resource::Catalog]),
            Step::Change(
                1,
                Cell::Bytes {
                    page: PageNo(9),
                    off: 96,
                },
                &[1],
                &[1],
            ),
        ],
    ),
    (
        "it changes a PFS byte",
        &[
            Step::Start(1, &[Resource::Byte(PageNo(8))]),
            Step::Change(
                1,
                Cell::Bytes {
                    page: PageNo(1),
                    off: 104,
                },
                &[1],
                &[1],
            ),
        ],
    ),
    (
        "it marks an extent",
        &[
            Step::Start(1, EXTENT_1),
            Step::Change(
                1,
                Cell::Bit {
                    page: PageNo(2),
                    n: 1,
                },
                &[0],
                &[1],
            ),
        ],
    ),
    (
        "it goes back whole",
        &[
            Step::Start(1, PAGE_8),
            Step::Change(1, OF_8, &[1], &[1]),
            Step::Change(1, NEXT_OF_8, &[1], &[1]),
            Step::Undo(1, 3),
            Step::Undo(1, 2),
            Step::Abort(1),
        ],
    ),
    (
        "a statement without transaction, and a check",
        &[Step::Start(0, &[]), Step::Snap(1, 1)],
    ),
];

#[test]
fn these_logs_keep_the_rules(rt: HostRuntime) {
    for (name, log) in KEEPING.iter() {
        expect_broken(&rt, rt.alloc(), log, None, name);
    }
}

// What the item with this number does wrong.
static BREAKING: [(&str, &[Step], u64); 11] = [
    (
        "it takes what another holds",
        &[Step::Start(1, PAGE_8), Step::Start(2, PAGE_8)],
        2,
    ),
    (
        "it changes a page that it doesn't hold",
        &[
            Step::Start(1, PAGE_8),
            Step::Change(
                1,
                Cell::Bytes {
                    page: PageNo(10),
                    off: 96,
                },
                &[1],
                &[1],
            ),
        ],
        2,
    ),
    (
        "it changes a byte that has no guard",
        &[
            Step::Start(1, PAGE_8),
            Step::Change(
                1,
                Cell::Bytes {
                    page: PageNo(0),
                    off: 96,
                },
                &[1],
                &[1],
            ),
        ],
        2,
    ),
    (
        "it changes PFS bytes of two extents at once",
        &[
            Step::Start(1, &[Resource::Byte(PageNo(7)), Resource::Byte(PageNo(8))]),
            Step::Change(
                1,
                Cell::Bytes {
                    page: PageNo(1),
                    off: 103,
                },
                &[1, 1],
                &[1, 1],
            ),
        ],
        2,
    ),
    (
        "the bit's extent is past the file's end",
        &[
            Step::Start(1, EXTENT_1),
            Step::Change(
                1,
                Cell::Bit {
                    page: PageNo(2),
                    n: 2,
                },
                &[0],
                &[1],
            ),
        ],
        2,
    ),
    (
        "it undoes a change that isn't the newest",
        &[
            Step::Start(1, PAGE_8),
            Step::Change(1, OF_8, &[1], &[1]),
            Step::Change(1, NEXT_OF_8, &[1], &[1]),
            Step::Undo(1, 2),
        ],
        4,
    ),
    (
        "it commits again",
        &[Step::Start(1, &[]), Step::Commit(1), Step::Commit(1)],
        3,
    ),
    (
        "it starts again",
        &[Step::Start(1, &[]), Step::Commit(1), Step::Start(1, &[])],
        3,
    ),
    (
        "it aborts with a change left",
        &[
            Step::Start(1, PAGE_8),
            Step::Change(1, OF_8, &[1], &[1]),
            Step::Abort(1),
        ],
        3,
    ),
    ("it skips a number", &[Step::Start(2, &[])], 1),
    ("no transaction takes a page", &[Step::Start(0, PAGE_8)], 1),
];

#[test]
fn the_first_item_that_breaks_a_rule_is_named(rt: HostRuntime) {
    for (name, log, lsn) in BREAKING.iter() {
        expect_broken(&rt, rt.alloc(), log, Some(Lsn(*lsn)), name);
    }
}
