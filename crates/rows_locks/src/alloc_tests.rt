// The page that a new object gets, in a file of three extents: the first of maps, the second mixed, the third
// free. What is expected is worked by hand.
ghost use Rattle.std.specs.Prelude.{◌≡◌, IfOk};
ghost use Rattle.spec_file.specs.declared.geometry.Geometry.TheVariants.{Small};
ghost use Rattle.db_locks.specs.Memory.{state_of};

use crate::changes::{Change, are_changes};
use crate::made::{locks_on, pages_of};
use db_alloc::{AllocStop, new_chain};
use db_locks::{MemView, PageStop, PlanPages};
use net_changes::{net_changes, net_takes};
use pg_base::{ExtentNo, Geometry, ObjId, Page, PageNo, Resource, Tran};
use rows_files::pieces::Piece;
use rows_files::pieces::Piece::{Bytes, Pfs};
use std::alloc::Global;
use std::test::Fail;

// A page that is given, what changes and what is taken.
#[derive(Drop)]
struct Given {
    name: &'static str,
    parts: &'static [&'static [Piece]],
    held: &'static [Resource],
    page: u32,
    changes: &'static [Change],
    takes: &'static [Resource],
}

static GIVEN: [Given; 4] = [
    Given {
        name: "the lowest page of the mixed extent",
        parts: &[],
        held: &[],
        page: 8,
        changes: &[
            Change::Cell(1, 104, &[0], &[0x70]),
            Change::Cell(
                8,
                0,
                &[0, 0, 0, 0, 0, 0, 0, 0, 0],
                &[1, 10, 0, 0, 8, 0, 0, 0, 1],
            ),
        ],
        takes: &[
            Resource::Extent(ExtentNo(1)),
            Resource::Byte(PageNo(8)),
            Resource::Page(PageNo(8)),
        ],
    },
    Given {
        name: "a held extent is passed over, and the free one becomes mixed",
        parts: &[],
        held: &[Resource::Extent(ExtentNo(1))],
        page: 16,
        changes: &[
            Change::Bit(2, 2, 1, 0),
            Change::Bit(3, 2, 0, 1),
            Change::Cell(1, 112, &[0], &[0x70]),
            Change::Cell(
                16,
                0,
                &[0, 0, 0, 0, 0, 0, 0, 0, 0],
                &[1, 10, 0, 0, 16, 0, 0, 0, 1],
            ),
        ],
        takes: &[
            Resource::Extent(ExtentNo(2)),
            Resource::Byte(PageNo(16)),
            Resource::Page(PageNo(16)),
        ],
    },
    Given {
        name: "a held byte is passed over, and so is the boot page",
        parts: &[],
        held: &[Resource::Byte(PageNo(8))],
        page: 10,
        changes: &[
            Change::Cell(1, 106, &[0], &[0x70]),
            Change::Cell(
                10,
                0,
                &[0, 0, 0, 0, 0, 0, 0, 0, 0],
                &[1, 10, 0, 0, 10, 0, 0, 0, 1],
            ),
        ],
        takes: &[
            Resource::Extent(ExtentNo(1)),
            Resource::Byte(PageNo(10)),
            Resource::Page(PageNo(10)),
        ],
    },
    Given {
        name: "the last page lowers SGAM",
        parts: &[&[
            Pfs(8, 0x60),
            Pfs(10, 0x60),
            Pfs(11, 0x60),
            Pfs(12, 0x60),
            Pfs(13, 0x60),
            Pfs(14, 0x60),
        ]],
        held: &[],
        page: 15,
        changes: &[
            Change::Bit(3, 1, 1, 0),
            Change::Cell(1, 111, &[0], &[0x70]),
            Change::Cell(
                15,
                0,
                &[0, 0, 0, 0, 0, 0, 0, 0, 0],
                &[1, 10, 0, 0, 15, 0, 0, 0, 1],
            ),
        ],
        takes: &[
            Resource::Extent(ExtentNo(1)),
            Resource::Byte(PageNo(15)),
            Resource::Page(PageNo(15)),
        ],
    },
];

// Why none is given.
#[derive(Drop)]
struct Refused {
    name: &'static str,
    parts: &'static [&'static [Piece]],
    held: &'static [Resource],
    stop: AllocStop,
}

static REFUSED: [Refused; 8] = [
    Refused {
        name: "no extent is mixed or free",
        parts: &[&[Bytes(2, 96, &[0]), Bytes(3, 96, &[0])]],
        held: &[],
        stop: AllocStop::Full,
    },
    Refused {
        name: "the mixed extent has no page left",
        parts: &[&[
            Bytes(2, 96, &[0]),
            Bytes(1, 104, &[0x60, 0x64, 0x60, 0x60, 0x60, 0x60, 0x60, 0x60]),
        ]],
        held: &[],
        stop: AllocStop::Full,
    },
    Refused {
        name: "the lowest extent that is held is told",
        parts: &[&[Bytes(2, 96, &[0])]],
        held: &[Resource::Extent(ExtentNo(2)), Resource::Extent(ExtentNo(1))],
        stop: AllocStop::Page(PageStop::Held {
            resource: Resource::Extent(ExtentNo(1)),
            by: Tran(2),
        }),
    },
    Refused {
        name: "of held extents no map is read",
        parts: &[&[Bytes(2, 1, &[7])]],
        held: &[
            Resource::Extent(ExtentNo(0)),
            Resource::Extent(ExtentNo(1)),
            Resource::Extent(ExtentNo(2)),
        ],
        stop: AllocStop::Page(PageStop::Held {
            resource: Resource::Extent(ExtentNo(0)),
            by: Tran(2),
        }),
    },
    Refused {
        name: "a bad GAM page",
        parts: &[&[Bytes(2, 1, &[7])]],
        held: &[],
        stop: AllocStop::Page(PageStop::Bad(PageNo(2))),
    },
    Refused {
        name: "a bad SGAM page",
        parts: &[&[Bytes(3, 4, &[7])]],
        held: &[],
        stop: AllocStop::Page(PageStop::Bad(PageNo(3))),
    },
    Refused {
        name: "a bad PFS page",
        parts: &[&[Bytes(1, 1, &[7])]],
        held: &[],
        stop: AllocStop::Page(PageStop::Bad(PageNo(1))),
    },
    Refused {
        name: "the page that was found is held",
        parts: &[],
        held: &[Resource::Page(PageNo(8))],
        stop: AllocStop::Page(PageStop::Held {
            resource: Resource::Page(PageNo(8)),
            by: Tran(2),
        }),
    },
];

fn view_of(alloc: Global, pages: Vec<Page>, held: &[Resource]) -> Result<MemView, Fail>
    ensures geometry { IfOk result (λ v. (state_of v).view.shape.geometry ≡ Small) }
    ensures pages { IfOk result (λ v. (state_of v).view.shape.pages ≡ 24) }
{
    if pages.len() != 24 {
        return Err(Fail::from("24 pages"));
    }
    Ok(MemView::begin(alloc, Geometry::Small, 1, pages, locks_on(alloc, held)?)?)
}

// Object 1 gets its page.
fn chain_of_one<P: PlanPages>(alloc: Global, v: &mut P) -> Result<Result<PageNo, AllocStop>, Fail>
    requires geometry { (P.state v.old).view.shape.geometry ≡ Small }
    requires pages { (P.state v.old).view.shape.pages ≡ 24 }
    ensures { IfOk result (λ done. (P.state v.new).view.shape ≡ (P.state v.old).view.shape) }
{
    let object = ObjId(1);
    if v.holder(Resource::Table(object)).is_some() {
        return Err(Fail::from("the table is held"));
    }
    Ok(new_chain(alloc, v, Geometry::Small, 24, object))
}

fn expect_given(alloc: Global, given: &Given) -> Result<(), Fail> {
    let mut view = view_of(alloc, pages_of(alloc, given.parts)?, given.held)?;
    match chain_of_one(alloc, &mut view)? {
        Err(stop) => return Err(Fail::new(format_args!("{}: {stop:?}", given.name))),
        Ok(p) => {
            if p.0 != given.page {
                return Err(Fail::new(format_args!("{}: {p:?}", given.name)));
            }
        }
    }
    let changes = net_changes(alloc, &view, Geometry::Small, 24)?;
    let takes = net_takes(alloc, &view, Geometry::Small, 24)?;
    if !are_changes(&changes, given.changes) || takes.as_slice() != given.takes {
        return Err(Fail::new(format_args!("{}: {takes:?}", given.name)));
    }
    Ok(())
}

fn expect_refused(alloc: Global, refused: &Refused) -> Result<(), Fail> {
    let mut view = view_of(alloc, pages_of(alloc, refused.parts)?, refused.held)?;
    match chain_of_one(alloc, &mut view)? {
        Ok(p) => Err(Fail::new(format_args!("{}: {p:?}", refused.name))),
        Err(stop) => {
            if stop != refused.stop {
                return Err(Fail::new(format_args!("{}: {stop:?}", refused.name)));
            }
            Ok(())
        }
    }
}

#[test]
fn a_new_object_gets_a_page(rt: HostRuntime) -> Result<(), Fail> {
    let alloc = rt.alloc();
    for given in GIVEN.iter() {
        expect_given(alloc, given)?;
    }
    Ok(())
}

#[test]
fn where_no_page_is_to_be_had_the_cause_is_told(rt: HostRuntime) -> Result<(), Fail> {
    let alloc = rt.alloc();
    for refused in REFUSED.iter() {
        expect_refused(alloc, refused)?;
    }
    Ok(())
}
