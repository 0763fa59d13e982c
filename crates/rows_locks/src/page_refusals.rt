// Why a heap gets no page, in the order in which it is met. What is expected is worked by hand.
use crate::page_cases::{FULL, Wanted, large_view, small_view, stop_of};
use crate::page_tests::{SECOND, one_page};
use db_alloc::AllocStop;
use pg_base::{ExtentNo, PageNo, Resource};
use rows_files::pieces::Piece;
use rows_files::pieces::Piece::{Bytes, Pfs};
use std::alloc::Global;
use std::test::Fail;

// What the file has, what another transaction holds, on which pages the statement stands, and why it stops.
#[derive(Drop)]
struct Refused {
    name: &'static str,
    parts: &'static [&'static [Piece]],
    held: &'static [Resource],
    path: &'static [PageNo],
    stop: Wanted,
}

const BAD_GAM: &[Piece] = &[Bytes(2, 1, &[7])];

// Slot 2 is empty, and extent 1 has page 12.
const ONE_SLOT: &[Piece] = &[Bytes(8, 112, &[0]), Pfs(12, 0), Bytes(3, 96, &[0b110])];

// Nothing is free: neither in a mixed extent nor in the marked one nor an extent.
const NOTHING_LEFT: &[Piece] = &[Bytes(2, 96, &[0]), Bytes(1, 120, &[0x40; 8])];

static REFUSED: [Refused; 15] = [
    Refused {
        name: "a page of the chain is held, whatever the maps are",
        parts: &[FULL, ONE_SLOT, BAD_GAM],
        held: &[Resource::Page(PageNo(8))],
        path: &[],
        stop: Wanted::Held(Resource::Page(PageNo(8))),
    },
    Refused {
        name: "a byte of a marked extent is held, though a slot is empty",
        parts: &[FULL, ONE_SLOT, BAD_GAM],
        held: &[Resource::Byte(PageNo(31))],
        path: &[],
        stop: Wanted::Held(Resource::Byte(PageNo(31))),
    },
    Refused {
        name: "a bad PFS page comes before a bad GAM page, for its bytes are read first",
        parts: &[FULL, ONE_SLOT, BAD_GAM, &[Bytes(1, 1, &[7])]],
        held: &[],
        path: &[],
        stop: Wanted::Bad(1),
    },
    Refused {
        name: "a slot is empty: a bad GAM page",
        parts: &[FULL, ONE_SLOT, BAD_GAM],
        held: &[],
        path: &[],
        stop: Wanted::Bad(2),
    },
    Refused {
        name: "the single page is held",
        parts: &[FULL, ONE_SLOT],
        held: &[Resource::Page(PageNo(12))],
        path: &[],
        stop: Wanted::Held(Resource::Page(PageNo(12))),
    },
    Refused {
        name: "the statement stands on the single page",
        parts: &[FULL, ONE_SLOT],
        held: &[],
        path: &[PageNo(10), PageNo(12)],
        stop: Wanted::Bad(12),
    },
    Refused {
        name: "the single page is one of the chain, whose byte doesn't say so",
        parts: &[FULL, ONE_SLOT, &[Pfs(8, 0)]],
        held: &[],
        path: &[],
        stop: Wanted::Bad(8),
    },
    Refused {
        name: "the statement stands on the page of the marked extent",
        parts: &[FULL],
        held: &[],
        path: &[PageNo(25)],
        stop: Wanted::Bad(25),
    },
    Refused {
        name: "that page is held, which is told first",
        parts: &[FULL],
        held: &[Resource::Page(PageNo(25))],
        path: &[PageNo(25)],
        stop: Wanted::Held(Resource::Page(PageNo(25))),
    },
    Refused {
        name: "the marked extent is full: a bad GAM page",
        parts: &[FULL, BAD_GAM, &[Bytes(1, 120, &[0x40; 8])]],
        held: &[],
        path: &[],
        stop: Wanted::Bad(2),
    },
    Refused {
        name: "the first page of the free extent is held",
        parts: &[FULL, &[Bytes(1, 120, &[0x40; 8])]],
        held: &[Resource::Page(PageNo(32))],
        path: &[],
        stop: Wanted::Held(Resource::Page(PageNo(32))),
    },
    Refused {
        name: "the statement stands on it",
        parts: &[FULL, &[Bytes(1, 120, &[0x40; 8])]],
        held: &[],
        path: &[PageNo(32)],
        stop: Wanted::Bad(32),
    },
    Refused {
        name: "nothing is free, and nobody holds an extent",
        parts: &[FULL, NOTHING_LEFT],
        held: &[Resource::Byte(PageNo(33)), Resource::Page(PageNo(34))],
        path: &[],
        stop: Wanted::Full,
    },
    Refused {
        name: "nothing is free, and the lowest extent that is held is told",
        parts: &[FULL, NOTHING_LEFT],
        held: &[Resource::Extent(ExtentNo(5)), Resource::Extent(ExtentNo(1))],
        path: &[],
        stop: Wanted::Held(Resource::Extent(ExtentNo(1))),
    },
    Refused {
        name: "the free extents are held",
        parts: &[FULL, &[Bytes(1, 120, &[0x40; 8])]],
        held: &[Resource::Extent(ExtentNo(5)), Resource::Extent(ExtentNo(4))],
        path: &[],
        stop: Wanted::Held(Resource::Extent(ExtentNo(4))),
    },
];

static REFUSED_BEYOND: [Refused; 5] = [
    Refused {
        name: "the extent's page is told before the new page of the chain",
        parts: &[SECOND],
        held: &[],
        path: &[PageNo(15), PageNo(520)],
        stop: Wanted::Bad(520),
    },
    Refused {
        name: "the statement stands on the new page of the chain",
        parts: &[SECOND],
        held: &[],
        path: &[PageNo(15)],
        stop: Wanted::Bad(15),
    },
    Refused {
        name: "the new page of the chain is held",
        parts: &[SECOND],
        held: &[Resource::Page(PageNo(15))],
        path: &[],
        stop: Wanted::Held(Resource::Page(PageNo(15))),
    },
    Refused {
        name: "no single page is to be had for the chain, for the one free extent is taken by then",
        parts: &[SECOND, &[Bytes(3, 96, &[0])]],
        held: &[],
        path: &[],
        stop: Wanted::Full,
    },
    Refused {
        name: "nor is one, and an extent is held",
        parts: &[SECOND],
        held: &[Resource::Extent(ExtentNo(1))],
        path: &[],
        stop: Wanted::Held(Resource::Extent(ExtentNo(1))),
    },
];

fn expect_stop(refused: &Refused, found: Result<PageNo, AllocStop>) -> Result<(), Fail> {
    match found {
        Ok(p) => Err(Fail::new(format_args!("{}: {p:?}", refused.name))),
        Err(stop) => {
            if stop != stop_of(refused.stop) {
                return Err(Fail::new(format_args!("{}: {stop:?}", refused.name)));
            }
            Ok(())
        }
    }
}

fn expect_refused(alloc: Global, refused: &Refused) -> Result<(), Fail> {
    let mut view = small_view(alloc, refused.parts, refused.held)?;
    let found = one_page(alloc, &mut view, 48, refused.path)?;
    expect_stop(refused, found)
}

fn expect_refused_beyond(alloc: Global, refused: &Refused) -> Result<(), Fail> {
    let mut view = large_view(alloc, refused.parts, refused.held)?;
    let found = one_page(alloc, &mut view, 1024, refused.path)?;
    expect_stop(refused, found)
}

#[test]
fn where_a_heap_gets_no_page_the_first_cause_is_told(rt: HostRuntime) -> Result<(), Fail> {
    let alloc = rt.alloc();
    for refused in REFUSED.iter() {
        expect_refused(alloc, refused)?;
    }
    Ok(())
}

#[test]
fn of_another_interval_the_page_comes_before_that_of_the_chain(
    rt: HostRuntime,
) -> Result<(), Fail> {
    let alloc = rt.alloc();
    for refused in REFUSED_BEYOND.iter() {
        expect_refused_beyond(alloc, refused)?;
    }
    Ok(())
}
