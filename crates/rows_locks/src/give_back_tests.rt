// A page that a heap gives back: what changes and is taken, or why it isn't given back. What is expected is worked by
// hand.
ghost use Rattle.std.specs.Prelude.{◌≡◌, IfOk};
ghost use Rattle.spec_file.specs.declared.geometry.Geometry.TheVariants.{Small};

use crate::changes::Change;
use crate::page_cases::{FULL, Left, Wanted, expect_left, heap_on, small_view, stop_of};
use db_alloc::{AllocStop, free_page};
use db_locks::{PageStop, PlanPages};
use pg_base::{ExtentNo, PageNo, Resource};
use rows_files::pieces::Piece;
use rows_files::pieces::Piece::{Bytes, Pfs};
use std::alloc::Global;
use std::test::Fail;

// A page that is given back, and what is left.
#[derive(Drop)]
struct Freed {
    name: &'static str,
    parts: &'static [&'static [Piece]],
    held: &'static [Resource],
    page: u32,
    left: Left,
}

// Of extent 2 only page 16 is allocated, and of the slots it is the last that holds a page.
const LAST_OF_MIXED: &[Piece] = &[Bytes(8, 132, &[0]), Pfs(17, 0)];

static FREED: [Freed; 8] = [
    Freed {
        name: "a page of a slot: the slot is empty, and SGAM says that its extent has a page",
        parts: &[FULL],
        held: &[],
        page: 11,
        left: Left {
            changes: &[
                Change::Bit(3, 1, 0, 1),
                Change::Cell(1, 107, &[0x60], &[0]),
                Change::Cell(8, 108, &[11], &[0]),
            ],
            takes: &[
                Resource::Extent(ExtentNo(1)),
                Resource::Byte(PageNo(11)),
                Resource::Page(PageNo(8)),
            ],
        },
    },
    Freed {
        name: "each slot that holds it is emptied",
        parts: &[FULL, &[Bytes(8, 116, &[11]), Bytes(3, 96, &[0b110])]],
        held: &[],
        page: 11,
        left: Left {
            changes: &[
                Change::Cell(1, 107, &[0x60], &[0]),
                Change::Cell(
                    8,
                    108,
                    &[11, 0, 0, 0, 12, 0, 0, 0, 11],
                    &[0, 0, 0, 0, 12, 0, 0, 0, 0],
                ),
            ],
            takes: &[
                Resource::Extent(ExtentNo(1)),
                Resource::Byte(PageNo(11)),
                Resource::Page(PageNo(8)),
            ],
        },
    },
    Freed {
        name: "the last page of a mixed extent: it is free",
        parts: &[FULL, LAST_OF_MIXED],
        held: &[],
        page: 16,
        left: Left {
            changes: &[
                Change::Bit(2, 2, 0, 1),
                Change::Bit(3, 2, 1, 0),
                Change::Cell(1, 112, &[0x60], &[0]),
                Change::Cell(8, 128, &[16], &[0]),
            ],
            takes: &[
                Resource::Extent(ExtentNo(2)),
                Resource::Byte(PageNo(16)),
                Resource::Page(PageNo(8)),
            ],
        },
    },
    Freed {
        name: "a byte that another holds keeps the extent in use",
        parts: &[FULL, LAST_OF_MIXED],
        held: &[Resource::Byte(PageNo(23))],
        page: 16,
        left: Left {
            changes: &[
                Change::Cell(1, 112, &[0x60], &[0]),
                Change::Cell(8, 128, &[16], &[0]),
            ],
            takes: &[
                Resource::Extent(ExtentNo(2)),
                Resource::Byte(PageNo(16)),
                Resource::Page(PageNo(8)),
            ],
        },
    },
    Freed {
        name: "a page of a marked extent that stays in use: its byte alone, and the extent isn't taken",
        parts: &[FULL, &[Pfs(31, 0x41)]],
        held: &[Resource::Extent(ExtentNo(3))],
        page: 24,
        left: Left {
            changes: &[Change::Cell(1, 120, &[0x40], &[0])],
            takes: &[Resource::Byte(PageNo(24))],
        },
    },
    Freed {
        name: "the last page of a marked extent: its mark goes, and it is free",
        parts: &[FULL],
        held: &[],
        page: 24,
        left: Left {
            changes: &[
                Change::Bit(2, 3, 0, 1),
                Change::Cell(1, 120, &[0x40], &[0]),
                Change::Cell(8, 136, &[0b1000], &[0]),
            ],
            takes: &[
                Resource::Extent(ExtentNo(3)),
                Resource::Byte(PageNo(24)),
                Resource::Page(PageNo(8)),
            ],
        },
    },
    Freed {
        name: "other marks stay",
        parts: &[
            FULL,
            &[
                Bytes(8, 136, &[0b11000]),
                Pfs(32, 0x40),
                Bytes(2, 96, &[0b100000]),
            ],
        ],
        held: &[],
        page: 24,
        left: Left {
            changes: &[
                Change::Bit(2, 3, 0, 1),
                Change::Cell(1, 120, &[0x40], &[0]),
                Change::Cell(8, 136, &[0b11000], &[0b10000]),
            ],
            takes: &[
                Resource::Extent(ExtentNo(3)),
                Resource::Byte(PageNo(24)),
                Resource::Page(PageNo(8)),
            ],
        },
    },
    Freed {
        name: "a page in a slot, of an extent that is marked too, is one of the slot",
        parts: &[FULL, &[Bytes(8, 132, &[24])]],
        held: &[],
        page: 24,
        left: Left {
            changes: &[
                Change::Bit(2, 3, 0, 1),
                Change::Cell(1, 120, &[0x40], &[0]),
                Change::Cell(8, 132, &[24], &[0]),
            ],
            takes: &[
                Resource::Extent(ExtentNo(3)),
                Resource::Byte(PageNo(24)),
                Resource::Page(PageNo(8)),
            ],
        },
    },
];

// Why it isn't given back.
#[derive(Drop)]
struct Refused {
    name: &'static str,
    parts: &'static [&'static [Piece]],
    held: &'static [Resource],
    page: u32,
    stop: Wanted,
}

const BAD_GAM: &[Piece] = &[Bytes(2, 1, &[7])];

static REFUSED: [Refused; 10] = [
    Refused {
        name: "the chain is held, whatever the page is",
        parts: &[FULL],
        held: &[Resource::Page(PageNo(8))],
        page: 18,
        stop: Wanted::Held(Resource::Page(PageNo(8))),
    },
    Refused {
        name: "a byte of the table's is held, whatever the page is",
        parts: &[FULL],
        held: &[Resource::Byte(PageNo(30))],
        page: 18,
        stop: Wanted::Held(Resource::Byte(PageNo(30))),
    },
    Refused {
        name: "a page of a mixed extent that no slot holds, before its maps are read",
        parts: &[FULL, BAD_GAM, &[Pfs(18, 0x60)]],
        held: &[Resource::Extent(ExtentNo(2))],
        page: 18,
        stop: Wanted::Bad(18),
    },
    Refused {
        name: "a page of a marked extent that isn't allocated",
        parts: &[FULL, BAD_GAM],
        held: &[],
        page: 25,
        stop: Wanted::Bad(25),
    },
    Refused {
        name: "a page that the file doesn't have",
        parts: &[FULL],
        held: &[],
        page: 48,
        stop: Wanted::Bad(48),
    },
    Refused {
        name: "the extent of a slot's page is held, before its GAM page is read",
        parts: &[FULL, BAD_GAM],
        held: &[Resource::Extent(ExtentNo(1))],
        page: 11,
        stop: Wanted::Held(Resource::Extent(ExtentNo(1))),
    },
    Refused {
        name: "a bad GAM page comes before a bad SGAM page",
        parts: &[FULL, BAD_GAM, &[Bytes(3, 1, &[7])]],
        held: &[],
        page: 11,
        stop: Wanted::Bad(2),
    },
    Refused {
        name: "a bad SGAM page, though the marked extent stays in use",
        parts: &[FULL, &[Pfs(31, 0x41), Bytes(3, 1, &[7])]],
        held: &[],
        page: 24,
        stop: Wanted::Bad(3),
    },
    Refused {
        name: "the marked extent is held, whose last page it is",
        parts: &[FULL, BAD_GAM],
        held: &[Resource::Extent(ExtentNo(3))],
        page: 24,
        stop: Wanted::Held(Resource::Extent(ExtentNo(3))),
    },
    Refused {
        name: "a page of the chain isn't one of the table's",
        parts: &[FULL],
        held: &[],
        page: 8,
        stop: Wanted::Bad(8),
    },
];

// Heap t of a view of 48 pages gives this one back.
fn given_back<P: PlanPages>(alloc: Global, v: &mut P, p: u32) -> Result<Result<(), PageStop>, Fail>
    requires geometry { (P.state v.old).view.shape.geometry ≡ Small }
    requires pages { (P.state v.old).view.shape.pages ≡ 48 }
    ensures { IfOk result (λ done. (P.state v.new).view.shape ≡ (P.state v.old).view.shape) }
{
    let table = heap_on(alloc, v, 48)?;
    Ok(free_page(alloc, v, &table, PageNo(p)))
}

fn expect_freed(alloc: Global, freed: &Freed) -> Result<(), Fail> {
    let mut view = small_view(alloc, freed.parts, freed.held)?;
    if let Err(stop) = given_back(alloc, &mut view, freed.page)? {
        return Err(Fail::new(format_args!("{}: {stop:?}", freed.name)));
    }
    expect_left(alloc, freed.name, &view, 48, &freed.left)
}

fn expect_refused(alloc: Global, refused: &Refused) -> Result<(), Fail> {
    let mut view = small_view(alloc, refused.parts, refused.held)?;
    match given_back(alloc, &mut view, refused.page)? {
        Ok(()) => Err(Fail::from(refused.name)),
        Err(stop) => {
            if AllocStop::Page(stop) != stop_of(refused.stop) {
                return Err(Fail::new(format_args!("{}: {stop:?}", refused.name)));
            }
            Ok(())
        }
    }
}

#[test]
fn a_heap_gives_a_page_back(rt: HostRuntime) -> Result<(), Fail> {
    let alloc = rt.alloc();
    for freed in FREED.iter() {
        expect_freed(alloc, freed)?;
    }
    Ok(())
}

#[test]
fn where_no_page_is_given_back_the_first_cause_is_told(rt: HostRuntime) -> Result<(), Fail> {
    let alloc = rt.alloc();
    for refused in REFUSED.iter() {
        expect_refused(alloc, refused)?;
    }
    Ok(())
}
