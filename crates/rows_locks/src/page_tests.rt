// One more page for a heap, by each of the three ways. What is expected is worked by hand.
ghost use Rattle.std.specs.Prelude.{◌≡◌, IfOk};
ghost use Rattle.spec_file.specs.declared.geometry.Geometry.TheVariants.{Small};

use crate::changes::Change;
use crate::page_cases::{FULL, Left, expect_left, heap_on, large_view, small_view};
use db_alloc::{AllocStop, alloc_page};
use db_locks::PlanPages;
use pg_base::{ExtentNo, PageNo, Resource};
use rows_files::objects::Iam;
use rows_files::pieces::Piece::{Bytes, Chain, Heap, Pfs, Slots};
use rows_files::pieces::{ONLY, Piece};
use std::alloc::Global;
use std::test::Fail;

// A page that is given, and what is left.
#[derive(Drop)]
struct Given {
    name: &'static str,
    parts: &'static [&'static [Piece]],
    held: &'static [Resource],
    page: u32,
    left: Left,
}

// Slots from the first on hold pages 10 and 11.
const TWO_SLOTS: &[Piece] = &[
    Bytes(8, 112, &[0; 24]),
    Bytes(1, 108, &[0; 4]),
    Pfs(16, 0),
    Pfs(17, 0),
];

// SGAM says that extent 1 has a page left.
const SPARE: &[Piece] = &[Bytes(3, 96, &[0b110])];

// Each page of extent 3 is allocated.
const NO_MARKED: &[Piece] = &[Bytes(1, 120, &[0x40; 8])];

static GIVEN: [Given; 10] = [
    Given {
        name: "the lowest page of a mixed extent, for the lowest empty slot",
        parts: &[FULL, TWO_SLOTS, SPARE],
        held: &[],
        page: 12,
        left: Left {
            changes: &[
                Change::Cell(1, 108, &[0], &[0x60]),
                Change::Cell(8, 112, &[0], &[12]),
            ],
            takes: &[
                Resource::Extent(ExtentNo(1)),
                Resource::Byte(PageNo(12)),
                Resource::Page(PageNo(8)),
            ],
        },
    },
    Given {
        name: "an empty slot between others is the lowest",
        parts: &[FULL, SPARE, &[Bytes(8, 108, &[0]), Pfs(11, 0)]],
        held: &[],
        page: 11,
        left: Left {
            changes: &[
                Change::Bit(3, 1, 1, 0),
                Change::Cell(1, 107, &[0], &[0x60]),
                Change::Cell(8, 108, &[0], &[11]),
            ],
            takes: &[
                Resource::Extent(ExtentNo(1)),
                Resource::Byte(PageNo(11)),
                Resource::Page(PageNo(8)),
            ],
        },
    },
    Given {
        name: "a byte that another holds counts as allocated, and the last page lowers SGAM",
        parts: &[
            FULL,
            TWO_SLOTS,
            SPARE,
            &[Pfs(13, 0x60), Pfs(14, 0x60), Pfs(15, 0)],
        ],
        held: &[Resource::Byte(PageNo(12))],
        page: 15,
        left: Left {
            changes: &[
                Change::Bit(3, 1, 1, 0),
                Change::Cell(1, 111, &[0], &[0x60]),
                Change::Cell(8, 112, &[0], &[15]),
            ],
            takes: &[
                Resource::Extent(ExtentNo(1)),
                Resource::Byte(PageNo(15)),
                Resource::Page(PageNo(8)),
            ],
        },
    },
    Given {
        name: "no mixed extent has one: the lowest free extent becomes mixed",
        parts: &[FULL, TWO_SLOTS, &[Bytes(3, 96, &[0])]],
        held: &[],
        page: 32,
        left: Left {
            changes: &[
                Change::Bit(2, 4, 1, 0),
                Change::Bit(3, 4, 0, 1),
                Change::Cell(1, 128, &[0], &[0x60]),
                Change::Cell(8, 112, &[0], &[32]),
            ],
            takes: &[
                Resource::Extent(ExtentNo(4)),
                Resource::Byte(PageNo(32)),
                Resource::Page(PageNo(8)),
            ],
        },
    },
    Given {
        name: "no single page is to be had: a page of the marked extent, though a slot is empty",
        parts: &[FULL, TWO_SLOTS, &[Bytes(2, 96, &[0]), Bytes(3, 96, &[0])]],
        held: &[],
        page: 25,
        left: Left {
            changes: &[Change::Cell(1, 121, &[0], &[0x40])],
            takes: &[Resource::Byte(PageNo(25))],
        },
    },
    Given {
        name: "each slot holds a page: one of the marked extent; no map of extents is read, nor the extent taken",
        parts: &[FULL, &[Bytes(2, 1, &[7]), Bytes(3, 1, &[7])]],
        held: &[Resource::Extent(ExtentNo(3))],
        page: 25,
        left: Left {
            changes: &[Change::Cell(1, 121, &[0], &[0x40])],
            takes: &[Resource::Byte(PageNo(25))],
        },
    },
    Given {
        name: "the other bits of its byte stay",
        parts: &[FULL, &[Pfs(25, 0x40), Pfs(26, 0x01)]],
        held: &[],
        page: 26,
        left: Left {
            changes: &[Change::Cell(1, 122, &[0x01], &[0x41])],
            takes: &[Resource::Byte(PageNo(26))],
        },
    },
    Given {
        name: "each marked page is allocated: the lowest free extent is marked",
        parts: &[FULL, NO_MARKED],
        held: &[],
        page: 32,
        left: Left {
            changes: &[
                Change::Bit(2, 4, 1, 0),
                Change::Cell(1, 128, &[0], &[0x40]),
                Change::Cell(8, 136, &[0b1000], &[0b11000]),
            ],
            takes: &[
                Resource::Extent(ExtentNo(4)),
                Resource::Byte(PageNo(32)),
                Resource::Page(PageNo(8)),
            ],
        },
    },
    Given {
        name: "one that another holds is passed over",
        parts: &[FULL, NO_MARKED],
        held: &[Resource::Extent(ExtentNo(4))],
        page: 40,
        left: Left {
            changes: &[
                Change::Bit(2, 5, 1, 0),
                Change::Cell(1, 136, &[0], &[0x40]),
                Change::Cell(8, 136, &[0b1000], &[0b101000]),
            ],
            takes: &[
                Resource::Extent(ExtentNo(5)),
                Resource::Byte(PageNo(40)),
                Resource::Page(PageNo(8)),
            ],
        },
    },
    Given {
        name: "so they do in a free extent",
        parts: &[FULL, NO_MARKED, &[Pfs(32, 0x23)]],
        held: &[],
        page: 32,
        left: Left {
            changes: &[
                Change::Bit(2, 4, 1, 0),
                Change::Cell(1, 128, &[0x23], &[0x63]),
                Change::Cell(8, 136, &[0b1000], &[0b11000]),
            ],
            takes: &[
                Resource::Extent(ExtentNo(4)),
                Resource::Byte(PageNo(32)),
                Resource::Page(PageNo(8)),
            ],
        },
    },
];

/// Heap 1 in two intervals: its chain is page 8, for the first, where no extent is free. Its slots hold pages 10 to 14
/// and 16 to 18. Of the second interval only extent 65 is free, of pages 520 to 527.
pub const SECOND: &[Piece] = &[
    Heap(1, b't', 8),
    Chain(8, ONLY),
    Slots(8, &[10, 11, 12, 13, 14, 16, 17, 18]),
    Bytes(1, 106, &[0x60; 5]),
    Bytes(1, 112, &[0x60; 3]),
    Pfs(8, 0x70),
    Bytes(2, 96, &[0; 8]),
    Bytes(512, 96, &[0b10, 0, 0, 0, 0, 0, 0, 0]),
];

// A second page of the chain, which speaks of the second interval.
const ITS_PAGE: &[Piece] = &[
    Bytes(8, 16, &[15]),
    Chain(
        15,
        Iam {
            object: 1,
            prev: 8,
            next: 0,
            interval: 1,
            sequence: 1,
        },
    ),
    Pfs(15, 0x70),
];

// From its first byte to its mark: header, interval 1 and sequence 1, extent 1 of the interval.
const NEW_IAM: &[u8] = &[
    1, 10, 0, 0, 15, 0, 0, 0, 1, 0, 0, 0, 8, 0, 0, 0, 0, 0, 0, 0, 0, 0, 0, 0, 0, 0, 0, 0, 0, 0, 0,
    0, 0, 0, 0, 0, 0, 0, 0, 0, 0, 0, 0, 0, 0, 0, 0, 0, 0, 0, 0, 0, 0, 0, 0, 0, 0, 0, 0, 0, 0, 0, 0,
    0, 0, 0, 0, 0, 0, 0, 0, 0, 0, 0, 0, 0, 0, 0, 0, 0, 0, 0, 0, 0, 0, 0, 0, 0, 0, 0, 0, 0, 0, 0, 0,
    0, 1, 0, 0, 0, 1, 0, 0, 0, 0, 0, 0, 0, 0, 0, 0, 0, 0, 0, 0, 0, 0, 0, 0, 0, 0, 0, 0, 0, 0, 0, 0,
    0, 0, 0, 0, 0, 0, 0, 0, 0, 0b10,
];

static GIVEN_BEYOND: [Given; 2] = [
    Given {
        name: "the extent is marked on the chain's page of its interval",
        parts: &[SECOND, ITS_PAGE],
        held: &[],
        page: 520,
        left: Left {
            changes: &[
                Change::Bit(512, 1, 1, 0),
                Change::Cell(440, 176, &[0], &[0x40]),
                Change::Cell(15, 136, &[0], &[0b10]),
            ],
            takes: &[
                Resource::Extent(ExtentNo(65)),
                Resource::Byte(PageNo(520)),
                Resource::Page(PageNo(15)),
            ],
        },
    },
    Given {
        name: "the chain has none of its interval, and grows by a single page",
        parts: &[SECOND],
        held: &[],
        page: 520,
        left: Left {
            changes: &[
                Change::Bit(512, 1, 1, 0),
                Change::Bit(3, 1, 1, 0),
                Change::Cell(1, 111, &[0], &[0x70]),
                Change::Cell(440, 176, &[0], &[0x40]),
                Change::Cell(8, 16, &[0], &[15]),
                Change::Cell(15, 0, &[0; 137], NEW_IAM),
            ],
            takes: &[
                Resource::Extent(ExtentNo(1)),
                Resource::Extent(ExtentNo(65)),
                Resource::Byte(PageNo(15)),
                Resource::Byte(PageNo(520)),
                Resource::Page(PageNo(8)),
                Resource::Page(PageNo(15)),
            ],
        },
    },
];

/// Heap t of a view of so many pages gets one more, on a statement that stands on these pages.
pub fn one_page<P: PlanPages>(
    alloc: Global,
    v: &mut P,
    pages: u32,
    path: &[PageNo],
) -> Result<Result<PageNo, AllocStop>, Fail>
    requires geometry { (P.state v.old).view.shape.geometry ≡ Small }
    requires pages { (P.state v.old).view.shape.pages ≡ pages }
    ensures { IfOk result (λ done. (P.state v.new).view.shape ≡ (P.state v.old).view.shape) }
{
    let table = heap_on(alloc, v, pages)?;
    Ok(alloc_page(alloc, v, &table, path))
}

fn expect_given<P: PlanPages>(
    alloc: Global,
    v: &mut P,
    pages: u32,
    given: &Given,
) -> Result<(), Fail>
    requires geometry { (P.state v.old).view.shape.geometry ≡ Small }
    requires pages { (P.state v.old).view.shape.pages ≡ pages }
{
    match one_page(alloc, v, pages, &[])? {
        Err(stop) => return Err(Fail::new(format_args!("{}: {stop:?}", given.name))),
        Ok(p) => {
            if p.0 != given.page {
                return Err(Fail::new(format_args!("{}: {p:?}", given.name)));
            }
        }
    }
    expect_left(alloc, given.name, v, pages, &given.left)
}

#[test]
fn a_heap_gets_one_more_page(rt: HostRuntime) -> Result<(), Fail> {
    let alloc = rt.alloc();
    for given in GIVEN.iter() {
        let mut view = small_view(alloc, given.parts, given.held)?;
        expect_given(alloc, &mut view, 48, given)?;
    }
    Ok(())
}

#[test]
fn a_heap_gets_a_page_of_another_interval(rt: HostRuntime) -> Result<(), Fail> {
    let alloc = rt.alloc();
    for given in GIVEN_BEYOND.iter() {
        let mut view = large_view(alloc, given.parts, given.held)?;
        expect_given(alloc, &mut view, 1024, given)?;
    }
    Ok(())
}
