// Statements planned over a view in memory: what they answer, take and change, or the first refusal.
ghost use Rattle.std.specs.Prelude.{◌≡◌, true, IfOk};
ghost use Rattle.spec_script.specs.Lines.{is_statement};
ghost use Rattle.db_plan.specs.Plans.{is_planned};

use crate::changes::{Change, are_changes};
use crate::made::{HEAP, locks_on, pages_of};
use db_locks::MemView;
use db_plan::{Plan, PlanAt, plan};
use pg_base::{Geometry, ObjId, Page, PageNo, Resource, Tran};
use rows_files::pieces::Piece::{Bytes, Chain, Heap, HeapPage, Pfs, Rows, Slots};
use rows_files::pieces::{ONLY, Piece};
use spec_log::Values;
use spec_script::{Name, Refusal, Reply, Statement};
use std::alloc::Global;
use std::test::Fail;

// The heap `t`, whose only page is page 10, without rows.
const EMPTY: &[Piece] = &[
    Heap(1, b't', 8),
    Chain(8, ONLY),
    Slots(8, &[10]),
    HeapPage(10, 1),
    Pfs(8, 0x70),
    Pfs(10, 0x60),
];

static EMPTY_HEAP: [&[Piece]; 1] = [EMPTY];

/// What the transaction has announced, and the log: changes, changes, and bytes.
pub type Used = (u64, u64, u64);

/// Nothing yet.
pub const NOTHING: Used = (0, 0, 0);

fn counting(alloc: Global) -> Result<Statement, Fail>
    ensures proper { IfOk result (λ s. is_statement s ≡ true) }
    ensures planned { IfOk result (λ s. is_planned s ≡ true) }
{
    Ok(Statement::Count(Name::copied(alloc, "t")?))
}

fn selecting(alloc: Global) -> Result<Statement, Fail>
    ensures proper { IfOk result (λ s. is_statement s ≡ true) }
    ensures planned { IfOk result (λ s. is_planned s ≡ true) }
{
    Ok(Statement::Select {
        table: Name::copied(alloc, "t")?,
        key: 7,
    })
}

fn inserting(alloc: Global) -> Result<Statement, Fail>
    ensures proper { IfOk result (λ s. is_statement s ≡ true) }
    ensures planned { IfOk result (λ s. is_planned s ≡ true) }
{
    Ok(Statement::Insert {
        table: Name::copied(alloc, "t")?,
        key: 7,
        payload: Values::copied(alloc, b"abc")?,
    })
}

/// A statement is planned over these 24 pages.
pub fn planned_over(
    alloc: Global,
    geometry: Geometry,
    statement: &Statement,
    pages: Vec<Page>,
    held: &[Resource],
    used: Used,
) -> Result<Result<Plan, Refusal>, Fail>
    requires proper { is_statement statement.now ≡ true }
    requires planned { is_planned statement.now ≡ true }
{
    if pages.len() != 24 {
        return Err(Fail::from("24 pages"));
    }
    let locks = locks_on(alloc, held)?;
    let mut view = MemView::begin(alloc, geometry, 1, pages, locks)?;
    let (used_changes, announced_changes, announced_bytes) = used;
    let at = PlanAt {
        geometry,
        pages: 24,
        used_changes,
        announced_changes,
        announced_bytes,
    };
    Ok(plan(alloc, statement, &mut view, &at))
}

fn planned(
    alloc: Global,
    statement: &Statement,
    parts: &[&[Piece]],
    held: &[Resource],
    used: Used,
) -> Result<Result<Plan, Refusal>, Fail>
    requires proper { is_statement statement.now ≡ true }
    requires planned { is_planned statement.now ≡ true }
{
    let pages = pages_of(alloc, parts)?;
    planned_over(alloc, Geometry::Small, statement, pages, held, used)
}

fn inserted(
    alloc: Global,
    parts: &[&[Piece]],
    held: &[Resource],
    used: Used,
) -> Result<Result<Plan, Refusal>, Fail> {
    planned(alloc, &inserting(alloc)?, parts, held, used)
}

// A file, and how many rows its heap has.
static COUNTS: [(&[&[Piece]], u64); 2] = [(&[EMPTY], 0), (&[HEAP], 3)];

fn is_count(found: &Result<Plan, Refusal>, rows: u64) -> bool {
    match found {
        Ok(Plan::Read(Reply::Rows { count, payloads })) => *count == rows && payloads.count() == 0,
        _ => false,
    }
}

#[test]
fn a_count_only_reads(rt: HostRuntime) -> Result<(), Fail> {
    let alloc = rt.alloc();
    for (parts, rows) in COUNTS.iter() {
        let found = planned(alloc, &counting(alloc)?, parts, &[], NOTHING)?;
        assert!(rt; is_count(&found, *rows));
    }
    Ok(())
}

// Page 10 has two rows of 11 bytes; these two of key 7 stand behind them.
const TWO_SEVENS: &[Piece] = &[
    Rows(10, &[(7, 12), (7, 12)]),
    Bytes(10, 129, b"b"),
    Bytes(10, 141, b"a"),
];

// A file, and how many rows of key 7 its heap has.
static SELECTS: [(&[&[Piece]], u64); 2] = [(&[HEAP], 0), (&[HEAP, TWO_SEVENS], 2)];

fn is_select(found: &Result<Plan, Refusal>, rows: u64) -> bool {
    match found {
        Ok(Plan::Read(Reply::Rows { count, payloads })) => {
            *count == rows && payloads.count() as u64 == rows
        }
        _ => false,
    }
}

#[test]
fn a_select_only_reads(rt: HostRuntime) -> Result<(), Fail> {
    let alloc = rt.alloc();
    for (parts, rows) in SELECTS.iter() {
        let found = planned(alloc, &selecting(alloc)?, parts, &[], NOTHING)?;
        assert!(rt; is_select(&found, *rows));
    }
    Ok(())
}

// The PFS byte, the row, its slot, and of the header the number of slots and the free bytes.
static FIRST_ROW: [Change; 4] = [
    Change::Cell(1, 106, &[0x60], &[0x61]),
    Change::Cell(
        10,
        96,
        &[0; 14],
        &[0x10, 14, 0, 7, 0, 0, 0, 0, 0, 0, 0, b'a', b'b', b'c'],
    ),
    Change::Cell(10, 8190, &[0], &[96]),
    Change::Cell(10, 20, &[0, 0, 0xA0, 0x1F, 96], &[1, 0, 0x90, 0x1F, 110]),
];

static FIRST_TAKES: [Resource; 3] = [
    Resource::Table(ObjId(1)),
    Resource::Byte(PageNo(10)),
    Resource::Page(PageNo(10)),
];

fn is_first_row(found: &Result<Plan, Refusal>) -> bool {
    match found {
        Ok(
            Plan::Written {
                reply: Reply::Rows { count: 1, payloads },
                takes,
                changes,
            },
        ) => {
            payloads.count() == 0
                && takes.as_slice() == FIRST_TAKES.as_slice()
                && are_changes(changes, &FIRST_ROW)
        }
        _ => false,
    }
}

#[test]
fn the_first_row_makes_four_changes(rt: HostRuntime) -> Result<(), Fail> {
    let found = inserted(rt.alloc(), &EMPTY_HEAP, &[], NOTHING)?;
    assert!(rt; is_first_row(&found));
    Ok(())
}

/// A refusal: its number, what it names, a page, a resource, and the transaction that holds it.
#[derive(Drop)]
pub struct Due {
    pub number: u16,
    pub name: &'static str,
    pub page: u32,
    pub resource: Option<Resource>,
    pub by: u64,
}

/// It is refused so.
pub fn is_due(found: &Result<Plan, Refusal>, due: &Due) -> bool {
    match found {
        Ok(_) => false,
        Err(refusal) => {
            refusal.number == due.number
                && refusal.name.as_str() == due.name
                && refusal.key == 0
                && refusal.page == PageNo(due.page)
                && refusal.resource == due.resource
                && refusal.by == Tran(due.by)
        }
    }
}

// No table; none of this name; its page is another object's; its only page is full by its PFS byte.
static REFUSED: [(&[&[Piece]], Due); 4] = [
    (
        &[],
        Due {
            number: 208,
            name: "t",
            page: 0,
            resource: None,
            by: 0,
        },
    ),
    (
        &[EMPTY, &[Heap(1, b'u', 8)]],
        Due {
            number: 208,
            name: "t",
            page: 0,
            resource: None,
            by: 0,
        },
    ),
    (
        &[EMPTY, &[Bytes(10, 8, &[2])]],
        Due {
            number: 824,
            name: "",
            page: 10,
            resource: None,
            by: 0,
        },
    ),
    (
        &[EMPTY, &[Pfs(10, 0x64)]],
        Due {
            number: 1105,
            name: "",
            page: 0,
            resource: None,
            by: 0,
        },
    ),
];

#[test]
fn each_refusal_has_its_cause(rt: HostRuntime) -> Result<(), Fail> {
    for (parts, due) in REFUSED.iter() {
        let found = inserted(rt.alloc(), parts, &[], NOTHING)?;
        assert!(rt; is_due(&found, due));
    }
    Ok(())
}

// The only page is another object's, which is told only where nobody holds what is met on the way.
static BAD_HEAP: [&[Piece]; 2] = [EMPTY, &[Bytes(10, 8, &[2])]];

// What an INSERT meets, in its order.
static MET: [Resource; 5] = [
    Resource::Catalog,
    Resource::Table(ObjId(1)),
    Resource::Page(PageNo(8)),
    Resource::Byte(PageNo(10)),
    Resource::Page(PageNo(10)),
];

fn held_by_another(resource: Resource) -> Due {
    Due {
        number: 1222,
        name: "",
        page: 0,
        resource: Some(resource),
        by: 2,
    }
}

#[test]
fn what_another_holds_is_told_and_not_read(rt: HostRuntime) -> Result<(), Fail> {
    for resource in MET.iter() {
        let found = inserted(rt.alloc(), &EMPTY_HEAP, &[*resource], NOTHING)?;
        assert!(rt; is_due(&found, &held_by_another(*resource)));
        let found = inserted(rt.alloc(), &BAD_HEAP, &[*resource], NOTHING)?;
        assert!(rt; is_due(&found, &held_by_another(*resource)));
    }
    Ok(())
}

// The first row has 4 changes, of 20 bytes each and twice 1, 14, 1 and 5, in all 122, and 4 Undos of 17. A transaction
// has at most 8,192 changes, a log 524,288 and 268,435,456 bytes.
static WITHIN: [Used; 3] = [(8_188, 0, 0), (0, 524_284, 0), (0, 0, 268_435_266)];

static PASSING: [Used; 3] = [(8_189, 0, 0), (0, 524_285, 0), (0, 0, 268_435_267)];

static LOG_FULL: Due = Due {
    number: 9002,
    name: "",
    page: 0,
    resource: None,
    by: 0,
};

#[test]
fn a_limit_of_the_log_is_passed_by_one_more(rt: HostRuntime) -> Result<(), Fail> {
    let alloc = rt.alloc();
    for (within, passing) in WITHIN.iter().zip(PASSING.iter()) {
        let found = inserted(alloc, &EMPTY_HEAP, &[], *within)?;
        assert!(rt; is_first_row(&found));
        let found = inserted(alloc, &EMPTY_HEAP, &[], *passing)?;
        assert!(rt; is_due(&found, &LOG_FULL));
    }
    Ok(())
}
