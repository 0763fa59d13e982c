// What CREATE HEAP and DROP are refused by, in their order.
ghost use Rattle.std.specs.Prelude.{◌≡◌, true};
ghost use Rattle.spec_script.specs.Lines.{is_statement};
ghost use Rattle.db_plan.specs.Plans.{is_planned};

use crate::made::{HEAP, pages_of};
use crate::plan_tests::{Due, NOTHING, Used, is_due, planned_over};
use crate::table_tests::{GEOMETRIES, creating, dropping};
use db_plan::Plan;
use pg_base::{ExtentNo, Geometry, ObjId, Page, PageNo, Resource};
use rows_files::pieces::Piece;
use rows_files::pieces::Piece::{Bytes, Heap, Slots};
use spec_script::Statement;
use std::alloc::Global;
use std::test::Fail;

// A refusal and its cause, and what stands in the file besides, but is met later.
#[derive(Drop)]
struct Case {
    name: &'static str,
    parts: &'static [&'static [Piece]],
    held: &'static [Resource],
    wanted: Wanted,
}

// What a statement is refused by.
#[derive(Clone, Copy)]
enum Wanted {
    /// A number alone.
    Plain(u16),
    /// A number, with the name t.
    OfT(u16),
    /// 824 at a page.
    Bad(u32),
    /// 1222 on what transaction 2 holds.
    Held(Resource),
}

fn plain(number: u16) -> Due {
    Due {
        number,
        name: "",
        page: 0,
        resource: None,
        by: 0,
    }
}

fn due(wanted: Wanted) -> Due {
    match wanted {
        Wanted::Plain(number) => plain(number),
        Wanted::OfT(number) => Due {
            name: "t",
            ..plain(number)
        },
        Wanted::Bad(page) => Due { page, ..plain(824) },
        Wanted::Held(resource) => Due {
            resource: Some(resource),
            by: 2,
            ..plain(1222)
        },
    }
}

// An entry with id 0; t; a GAM page of another type.
const BAD_BOOT: Piece = Bytes(9, 5080, &[0, 0, 0, 0, 1]);

const T: Piece = Heap(1, b't', 8);

const BAD_GAM: Piece = Bytes(2, 1, &[7]);

static CREATE_REFUSED: [Case; 9] = [
    Case {
        name: "the catalog is held",
        parts: &[&[T, BAD_BOOT, BAD_GAM]],
        held: &[Resource::Catalog, Resource::Table(ObjId(1))],
        wanted: Wanted::Held(Resource::Catalog),
    },
    Case {
        name: "page 9 is bad",
        parts: &[&[T, BAD_BOOT, BAD_GAM]],
        held: &[Resource::Table(ObjId(1)), Resource::Table(ObjId(2))],
        wanted: Wanted::Bad(9),
    },
    Case {
        name: "the name is there",
        parts: &[&[T, BAD_GAM]],
        held: &[Resource::Table(ObjId(1)), Resource::Table(ObjId(2))],
        wanted: Wanted::OfT(2714),
    },
    Case {
        name: "the new table is held",
        parts: &[&[BAD_GAM]],
        held: &[Resource::Table(ObjId(1))],
        wanted: Wanted::Held(Resource::Table(ObjId(1))),
    },
    Case {
        name: "a bad GAM page",
        parts: &[&[BAD_GAM]],
        held: &[],
        wanted: Wanted::Bad(2),
    },
    Case {
        name: "both extents are held",
        parts: &[],
        held: &[Resource::Extent(ExtentNo(2)), Resource::Extent(ExtentNo(1))],
        wanted: Wanted::Held(Resource::Extent(ExtentNo(1))),
    },
    Case {
        name: "the page is held",
        parts: &[],
        held: &[Resource::Page(PageNo(8))],
        wanted: Wanted::Held(Resource::Page(PageNo(8))),
    },
    Case {
        name: "all free bytes are held",
        parts: &[&[
            Bytes(2, 96, &[0]),
            Bytes(1, 104, &[0, 0x64, 0x60, 0x60, 0x60, 0x60, 0x60, 0x60]),
        ]],
        held: &[Resource::Byte(PageNo(8))],
        wanted: Wanted::Plain(1105),
    },
    Case {
        name: "no extent is mixed or free",
        parts: &[&[Bytes(2, 96, &[0]), Bytes(3, 96, &[0])]],
        held: &[],
        wanted: Wanted::Plain(1105),
    },
];

static DROP_REFUSED: [Case; 12] = [
    Case {
        name: "the catalog is held",
        parts: &[HEAP, &[BAD_BOOT]],
        held: &[Resource::Catalog],
        wanted: Wanted::Held(Resource::Catalog),
    },
    Case {
        name: "page 9 is bad",
        parts: &[HEAP, &[BAD_BOOT]],
        held: &[Resource::Table(ObjId(1))],
        wanted: Wanted::Bad(9),
    },
    Case {
        name: "no table of this name",
        parts: &[&[Heap(1, b'u', 8)]],
        held: &[Resource::Table(ObjId(1))],
        wanted: Wanted::OfT(208),
    },
    Case {
        name: "the table is held",
        parts: &[HEAP],
        held: &[Resource::Table(ObjId(1)), Resource::Page(PageNo(8))],
        wanted: Wanted::Held(Resource::Table(ObjId(1))),
    },
    Case {
        name: "the IAM page is held",
        parts: &[HEAP],
        held: &[Resource::Page(PageNo(8)), Resource::Byte(PageNo(10))],
        wanted: Wanted::Held(Resource::Page(PageNo(8))),
    },
    Case {
        name: "the IAM page is another object's",
        parts: &[HEAP, &[Bytes(8, 8, &[2])]],
        held: &[Resource::Byte(PageNo(10))],
        wanted: Wanted::Bad(8),
    },
    Case {
        name: "the byte of a page is held",
        parts: &[HEAP, &[Slots(8, &[10, 3])]],
        held: &[Resource::Byte(PageNo(17)), Resource::Extent(ExtentNo(1))],
        wanted: Wanted::Held(Resource::Byte(PageNo(17))),
    },
    Case {
        name: "a slot holds the SGAM page",
        parts: &[HEAP, &[Slots(8, &[10, 3]), BAD_GAM]],
        held: &[Resource::Extent(ExtentNo(1))],
        wanted: Wanted::Bad(3),
    },
    Case {
        name: "the extent of a page is held",
        parts: &[HEAP, &[BAD_GAM]],
        held: &[Resource::Extent(ExtentNo(1))],
        wanted: Wanted::Held(Resource::Extent(ExtentNo(1))),
    },
    Case {
        name: "a bad GAM page",
        parts: &[HEAP, &[BAD_GAM]],
        held: &[],
        wanted: Wanted::Bad(2),
    },
    Case {
        name: "the marked extent is held",
        parts: &[HEAP],
        held: &[Resource::Extent(ExtentNo(2))],
        wanted: Wanted::Held(Resource::Extent(ExtentNo(2))),
    },
    Case {
        name: "the byte of the IAM page is held",
        parts: &[HEAP],
        held: &[Resource::Byte(PageNo(8))],
        wanted: Wanted::Held(Resource::Byte(PageNo(8))),
    },
];

fn expect_refused(
    alloc: Global,
    geometry: Geometry,
    statement: &Statement,
    case: &Case,
) -> Result<(), Fail>
    requires proper { is_statement statement.now ≡ true }
    requires planned { is_planned statement.now ≡ true }
{
    let pages = pages_of(alloc, case.parts)?;
    let found = planned_over(alloc, geometry, statement, pages, case.held, NOTHING)?;
    if !is_due(&found, &due(case.wanted)) {
        return Err(Fail::from(case.name));
    }
    Ok(())
}

#[test]
fn a_table_that_cannot_come_is_refused_in_order(rt: HostRuntime) -> Result<(), Fail> {
    let alloc = rt.alloc();
    for geometry in GEOMETRIES.iter() {
        for case in CREATE_REFUSED.iter() {
            expect_refused(alloc, *geometry, &creating(alloc)?, case)?;
        }
    }
    Ok(())
}

#[test]
fn a_table_that_cannot_go_is_refused_in_order(rt: HostRuntime) -> Result<(), Fail> {
    let alloc = rt.alloc();
    for geometry in GEOMETRIES.iter() {
        for case in DROP_REFUSED.iter() {
            expect_refused(alloc, *geometry, &dropping(alloc)?, case)?;
        }
    }
    Ok(())
}
