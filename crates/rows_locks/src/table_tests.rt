// CREATE HEAP and DROP planned over a file of three extents, in both geometries: the first extent of maps, the second
// mixed, the third free. What is expected is worked by hand.
ghost use Rattle.std.specs.Prelude.{◌≡◌, true, IfOk};
ghost use Rattle.spec_script.specs.Lines.{is_statement};
ghost use Rattle.db_plan.specs.Plans.{is_planned};

use crate::changes::{Change, are_changes};
use crate::made::{HEAP, pages_of};
use crate::plan_tests::{NOTHING, planned_over};
use db_plan::Plan;
use pg_base::{ExtentNo, Geometry, ObjId, PageNo, Resource};
use rows_files::pieces::Piece::{Bytes, Chain, Heap, Marks, Pfs};
use rows_files::pieces::{ONLY, Piece};
use spec_script::{Name, Refusal, Reply, Statement};
use std::alloc::Global;
use std::test::Fail;

/// CREATE HEAP t.
pub fn creating(alloc: Global) -> Result<Statement, Fail>
    ensures proper { IfOk result (λ s. is_statement s ≡ true) }
    ensures planned { IfOk result (λ s. is_planned s ≡ true) }
{
    Ok(Statement::CreateHeap(Name::copied(alloc, "t")?))
}

/// DROP t.
pub fn dropping(alloc: Global) -> Result<Statement, Fail>
    ensures proper { IfOk result (λ s. is_statement s ≡ true) }
    ensures planned { IfOk result (λ s. is_planned s ≡ true) }
{
    Ok(Statement::Drop(Name::copied(alloc, "t")?))
}

// A table that comes or goes: what the statement finds, changes and takes.
#[derive(Drop)]
struct Case {
    name: &'static str,
    parts: &'static [&'static [Piece]],
    held: &'static [Resource],
    changes: &'static [Change],
    takes: &'static [Resource],
}

static CREATED: [Case; 4] = [
    Case {
        name: "the first table: id 1, entry 0, IAM page 8",
        parts: &[],
        held: &[],
        changes: &[
            Change::Cell(1, 104, &[0], &[0x70]),
            Change::Cell(8, 0, &[0; 9], &[1, 10, 0, 0, 8, 0, 0, 0, 1]),
            Change::Cell(
                9,
                96,
                &[0; 25],
                &[
                    1, 0, 0, 0, 1, 1, b't', 0, 0, 0, 0, 0, 0, 0, 0, 0, 0, 0, 0, 0, 0, 0, 0, 0, 8,
                ],
            ),
        ],
        takes: &[
            Resource::Catalog,
            Resource::Table(ObjId(1)),
            Resource::Extent(ExtentNo(1)),
            Resource::Byte(PageNo(8)),
            Resource::Page(PageNo(8)),
        ],
    },
    Case {
        name: "id 2 and entry 1 are between those of others",
        parts: &[&[
            Heap(1, b'a', 8),
            Heap(3, b'c', 10),
            Pfs(8, 0x70),
            Pfs(10, 0x70),
        ]],
        held: &[],
        changes: &[
            Change::Cell(1, 107, &[0], &[0x70]),
            Change::Cell(11, 0, &[0; 9], &[1, 10, 0, 0, 11, 0, 0, 0, 2]),
            Change::Cell(
                9,
                136,
                &[0; 25],
                &[
                    2, 0, 0, 0, 1, 1, b't', 0, 0, 0, 0, 0, 0, 0, 0, 0, 0, 0, 0, 0, 0, 0, 0, 0, 11,
                ],
            ),
        ],
        takes: &[
            Resource::Catalog,
            Resource::Table(ObjId(2)),
            Resource::Extent(ExtentNo(1)),
            Resource::Byte(PageNo(11)),
            Resource::Page(PageNo(11)),
        ],
    },
    Case {
        name: "entry 0 is free, and its number says nothing of the id",
        parts: &[&[Heap(2, b'b', 8), Bytes(9, 136, &[1]), Pfs(8, 0x70)]],
        held: &[],
        changes: &[
            Change::Cell(1, 106, &[0], &[0x70]),
            Change::Cell(10, 0, &[0; 9], &[1, 10, 0, 0, 10, 0, 0, 0, 2]),
            Change::Cell(
                9,
                96,
                &[0; 25],
                &[
                    2, 0, 0, 0, 1, 1, b't', 0, 0, 0, 0, 0, 0, 0, 0, 0, 0, 0, 0, 0, 0, 0, 0, 0, 10,
                ],
            ),
        ],
        takes: &[
            Resource::Catalog,
            Resource::Table(ObjId(2)),
            Resource::Extent(ExtentNo(1)),
            Resource::Byte(PageNo(10)),
            Resource::Page(PageNo(10)),
        ],
    },
    Case {
        name: "a held extent is passed over, and the free one becomes mixed",
        parts: &[],
        held: &[Resource::Extent(ExtentNo(1))],
        changes: &[
            Change::Bit(2, 2, 1, 0),
            Change::Bit(3, 2, 0, 1),
            Change::Cell(1, 112, &[0], &[0x70]),
            Change::Cell(16, 0, &[0; 9], &[1, 10, 0, 0, 16, 0, 0, 0, 1]),
            Change::Cell(
                9,
                96,
                &[0; 25],
                &[
                    1, 0, 0, 0, 1, 1, b't', 0, 0, 0, 0, 0, 0, 0, 0, 0, 0, 0, 0, 0, 0, 0, 0, 0, 16,
                ],
            ),
        ],
        takes: &[
            Resource::Catalog,
            Resource::Table(ObjId(1)),
            Resource::Extent(ExtentNo(2)),
            Resource::Byte(PageNo(16)),
            Resource::Page(PageNo(16)),
        ],
    },
];

static DROPPED: [Case; 4] = [
    Case {
        name: "a chain alone, of page 8",
        parts: &[&[Heap(1, b't', 8), Chain(8, ONLY), Pfs(8, 0x70)]],
        held: &[],
        changes: &[
            Change::Cell(1, 104, &[0x70], &[0]),
            Change::Cell(
                9,
                96,
                &[
                    1, 0, 0, 0, 1, 1, b't', 0, 0, 0, 0, 0, 0, 0, 0, 0, 0, 0, 0, 0, 0, 0, 0, 0, 8,
                ],
                &[0; 25],
            ),
        ],
        takes: &[
            Resource::Catalog,
            Resource::Table(ObjId(1)),
            Resource::Extent(ExtentNo(1)),
            Resource::Byte(PageNo(8)),
        ],
    },
    Case {
        name: "a marked extent without pages becomes free",
        parts: &[&[
            Heap(1, b't', 8),
            Chain(8, ONLY),
            Marks(8, 0b100),
            Pfs(8, 0x70),
            Bytes(2, 96, &[0]),
        ]],
        held: &[],
        changes: &[
            Change::Bit(2, 2, 0, 1),
            Change::Cell(1, 104, &[0x70], &[0]),
            Change::Cell(
                9,
                96,
                &[
                    1, 0, 0, 0, 1, 1, b't', 0, 0, 0, 0, 0, 0, 0, 0, 0, 0, 0, 0, 0, 0, 0, 0, 0, 8,
                ],
                &[0; 25],
            ),
        ],
        takes: &[
            Resource::Catalog,
            Resource::Table(ObjId(1)),
            Resource::Extent(ExtentNo(1)),
            Resource::Extent(ExtentNo(2)),
            Resource::Byte(PageNo(8)),
        ],
    },
    Case {
        name: "pages of slots and of a marked extent",
        parts: &[HEAP, &[Bytes(2, 96, &[0])]],
        held: &[],
        changes: &[
            Change::Bit(2, 2, 0, 1),
            Change::Cell(1, 104, &[0x70], &[0]),
            Change::Cell(1, 106, &[0x61, 0x61], &[0, 0]),
            Change::Cell(1, 113, &[0x40], &[0]),
            Change::Cell(
                9,
                96,
                &[
                    1, 0, 0, 0, 1, 1, b't', 0, 0, 0, 0, 0, 0, 0, 0, 0, 0, 0, 0, 0, 0, 0, 0, 0, 8,
                ],
                &[0; 25],
            ),
        ],
        takes: &[
            Resource::Catalog,
            Resource::Table(ObjId(1)),
            Resource::Extent(ExtentNo(1)),
            Resource::Extent(ExtentNo(2)),
            Resource::Byte(PageNo(8)),
            Resource::Byte(PageNo(10)),
            Resource::Byte(PageNo(11)),
            Resource::Byte(PageNo(17)),
        ],
    },
    Case {
        name: "the last page of a mixed extent frees it",
        parts: &[&[
            Heap(1, b't', 16),
            Chain(16, ONLY),
            Pfs(16, 0x70),
            Bytes(2, 96, &[0]),
            Bytes(3, 96, &[0b110]),
        ]],
        held: &[],
        changes: &[
            Change::Bit(2, 2, 0, 1),
            Change::Bit(3, 2, 1, 0),
            Change::Cell(1, 112, &[0x70], &[0]),
            Change::Cell(
                9,
                96,
                &[
                    1, 0, 0, 0, 1, 1, b't', 0, 0, 0, 0, 0, 0, 0, 0, 0, 0, 0, 0, 0, 0, 0, 0, 0, 16,
                ],
                &[0; 25],
            ),
        ],
        takes: &[
            Resource::Catalog,
            Resource::Table(ObjId(1)),
            Resource::Extent(ExtentNo(2)),
            Resource::Byte(PageNo(16)),
        ],
    },
];

/// Both geometries. They have the same places for the first extents of a file.
pub static GEOMETRIES: [Geometry; 2] = [Geometry::Small, Geometry::Standard];

fn is_case(found: &Result<Plan, Refusal>, case: &Case) -> bool {
    match found {
        Ok(
            Plan::Written {
                reply: Reply::Done,
                takes,
                changes,
            },
        ) => takes.as_slice() == case.takes && are_changes(changes, case.changes),
        _ => false,
    }
}

fn expect_case(
    alloc: Global,
    geometry: Geometry,
    statement: &Statement,
    case: &Case,
) -> Result<(), Fail>
    requires proper { is_statement statement.now ≡ true }
    requires planned { is_planned statement.now ≡ true }
{
    let pages = pages_of(alloc, case.parts)?;
    let found = planned_over(alloc, geometry, statement, pages, case.held, NOTHING)?;
    if !is_case(&found, case) {
        return Err(Fail::from(case.name));
    }
    Ok(())
}

#[test]
fn a_table_comes_with_its_chain_and_its_entry(rt: HostRuntime) -> Result<(), Fail> {
    let alloc = rt.alloc();
    for geometry in GEOMETRIES.iter() {
        for case in CREATED.iter() {
            expect_case(alloc, *geometry, &creating(alloc)?, case)?;
        }
    }
    Ok(())
}

#[test]
fn a_table_goes_with_all_that_it_owns(rt: HostRuntime) -> Result<(), Fail> {
    let alloc = rt.alloc();
    for geometry in GEOMETRIES.iter() {
        for case in DROPPED.iter() {
            expect_case(alloc, *geometry, &dropping(alloc)?, case)?;
        }
    }
    Ok(())
}
