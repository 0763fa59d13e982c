// Facts of pages, in one part and in several, and the errors that they show together.
ghost use Rattle.std.specs.Prelude.{◌≡◌, [], IfOk};

use crate::made::{HEAP, MadeMap, MadeRow, TAKEN, WRONG, expect_errors, map_of};
use ck_facts::{AllocMap, CheckError, Fact};
use ck_merge::Parts;
use pg_base::{Kind, NoMemory, ObjId, PageNo};
use spec_tree::{IndexRow, PageHead};
use std::alloc::Global;
use std::process::Abort;
use std::test::Fail;
use std::thread::Threads;

// Object 1 is a clustered table with root 10; 2 and 3 are heaps.
static ONE_TABLE: MadeMap = MadeMap {
    objects: &[
        MadeRow {
            kind: Kind::Clustered,
            root: 10,
            ..HEAP
        },
        MadeRow { id: 2, ..HEAP },
        MadeRow { id: 3, ..HEAP },
    ],
    chains: &[],
    uses: &[],
    extents: &[TAKEN, TAKEN],
    pfs: &[0; 16],
};

fn one_table(alloc: Global) -> Result<AllocMap, NoMemory>
    ensures { IfOk result (λ map. map.system.items ≡ []) }
{
    map_of(alloc, 16, &ONE_TABLE, &[])
}

// All facts at once, in their order, in one part and so many more.
fn at_once(alloc: Global, facts: &[Fact], more: u8) -> Result<Vec<CheckError>, NoMemory> {
    let mut parts = Parts::begin(alloc, &one_table(alloc)?, u32::from(more) + 1)?;
    parts.add(facts)?;
    parts.finish()
}

// Each fact in parts of its own, joined from the last to the first.
fn from_behind(alloc: Global, facts: &[Fact], more: u8) -> Result<Parts, NoMemory> {
    let map = one_table(alloc)?;
    let count = u32::from(more) + 1;
    let mut parts = Parts::begin(alloc, &map, count)?;
    for fact in facts.iter().rev() {
        let mut other = Parts::begin(alloc, &map, count)?;
        other.add(&[*fact])?;
        parts.join(other)?;
    }
    Ok(parts)
}

// The same, joined from the first to the last.
fn from_front(alloc: Global, facts: &[Fact], more: u8) -> Result<Parts, NoMemory> {
    let map = one_table(alloc)?;
    let count = u32::from(more) + 1;
    let mut parts = Parts::begin(alloc, &map, count)?;
    for fact in facts {
        let mut other = Parts::begin(alloc, &map, count)?;
        other.add(&[*fact])?;
        parts.join(other)?;
    }
    Ok(parts)
}

// What a case is called, its facts, and the errors that they show.
type Case = (&'static str, &'static [Fact], &'static [CheckError]);

fn are_matched<T: Abort + Threads + Sync>(
    rt: &T,
    alloc: Global,
    cases: &[Case],
) -> Result<(), Fail> {
    for (name, facts, wanted) in cases {
        for more in [0, 1, 2, 15] {
            let found = at_once(alloc, facts, more)?;
            expect_errors(rt, found.as_slice(), wanted, name);
            let found = from_behind(alloc, facts, more)?.finish()?;
            expect_errors(rt, found.as_slice(), wanted, name);
            let found = from_front(alloc, facts, more)?.finish_together(rt)?;
            expect_errors(rt, found.as_slice(), wanted, name);
        }
    }
    Ok(())
}

// A leaf with one row, whose key is 1.
const LEAF: PageHead = PageHead {
    object: ObjId(1),
    page: PageNo(0),
    level: 0,
    prev: PageNo(0),
    next: PageNo(0),
    first: Some(1),
    last: Some(1),
    last_child: PageNo(0),
};

// Slot 0 of root 10, the only one.
const ROW: IndexRow = IndexRow {
    object: ObjId(1),
    parent: PageNo(10),
    slot: 0,
    level: 1,
    key: 0,
    next_key: None,
    child: PageNo(0),
    before: PageNo(0),
    parent_prev: PageNo(0),
    parent_next: PageNo(0),
};

// First root 10 on level 2 over 11 and 12, and these over leaves 13, 14 and 15, where 15 says that 13 is before it.
// Then root 10 names leaf 11 twice, and a page that is nowhere.
static SIDE_CASES: [Case; 3] = [
    (
        "a page that is before its leaf is found from three sides",
        &[
            Fact::Seen(PageHead {
                page: PageNo(10),
                level: 2,
                first: Some(0),
                last: Some(100),
                last_child: PageNo(12),
                ..LEAF
            }),
            Fact::Child(IndexRow {
                level: 2,
                next_key: Some(100),
                child: PageNo(11),
                ..ROW
            }),
            Fact::Child(IndexRow {
                slot: 1,
                level: 2,
                key: 100,
                child: PageNo(12),
                before: PageNo(11),
                ..ROW
            }),
            Fact::Seen(PageHead {
                page: PageNo(11),
                level: 1,
                next: PageNo(12),
                first: Some(0),
                last: Some(50),
                last_child: PageNo(14),
                ..LEAF
            }),
            Fact::Child(IndexRow {
                parent: PageNo(11),
                next_key: Some(50),
                child: PageNo(13),
                parent_next: PageNo(12),
                ..ROW
            }),
            Fact::Child(IndexRow {
                parent: PageNo(11),
                slot: 1,
                key: 50,
                child: PageNo(14),
                before: PageNo(13),
                parent_next: PageNo(12),
                ..ROW
            }),
            Fact::Seen(PageHead {
                page: PageNo(12),
                level: 1,
                prev: PageNo(11),
                first: Some(100),
                last: Some(100),
                last_child: PageNo(15),
                ..LEAF
            }),
            Fact::Child(IndexRow {
                parent: PageNo(12),
                key: 100,
                child: PageNo(15),
                parent_prev: PageNo(11),
                ..ROW
            }),
            Fact::Seen(PageHead {
                page: PageNo(13),
                next: PageNo(14),
                ..LEAF
            }),
            Fact::Seen(PageHead {
                page: PageNo(14),
                prev: PageNo(13),
                next: PageNo(15),
                first: Some(60),
                last: Some(60),
                ..LEAF
            }),
            Fact::Seen(PageHead {
                page: PageNo(15),
                prev: PageNo(13),
                first: Some(100),
                last: Some(100),
                ..LEAF
            }),
        ],
        &[
            CheckError {
                number: 8935,
                page: 15,
                other: 12,
                value: 13,
                ..WRONG
            },
            CheckError {
                number: 8936,
                page: 14,
                other: 15,
                value: 13,
                ..WRONG
            },
            CheckError {
                number: 8978,
                page: 15,
                other: 13,
                ..WRONG
            },
        ],
    ),
    (
        "a leaf with two parents and a child that is nowhere",
        &[
            Fact::Seen(PageHead {
                page: PageNo(10),
                level: 1,
                first: Some(0),
                last: Some(90),
                last_child: PageNo(20),
                ..LEAF
            }),
            Fact::Child(IndexRow {
                next_key: Some(50),
                child: PageNo(11),
                ..ROW
            }),
            Fact::Child(IndexRow {
                slot: 1,
                key: 50,
                next_key: Some(90),
                child: PageNo(11),
                before: PageNo(11),
                ..ROW
            }),
            Fact::Child(IndexRow {
                slot: 2,
                key: 90,
                child: PageNo(20),
                before: PageNo(11),
                ..ROW
            }),
            Fact::Seen(PageHead {
                page: PageNo(11),
                ..LEAF
            }),
        ],
        &[
            CheckError {
                number: 8933,
                page: 11,
                other: 10,
                slot: 1,
                value: 1,
                ..WRONG
            },
            CheckError {
                number: 8935,
                page: 11,
                other: 10,
                slot: 1,
                ..WRONG
            },
            CheckError {
                number: 8937,
                page: 11,
                other: 10,
                value: 2,
                ..WRONG
            },
            CheckError {
                number: 8980,
                page: 20,
                other: 10,
                slot: 2,
                ..WRONG
            },
        ],
    ),
    (
        "a root that is not seen",
        &[],
        &[CheckError {
            number: 8928,
            page: 10,
            value: 1,
            ..WRONG
        }],
    ),
];

#[test]
fn pages_are_matched_from_each_side(rt: HostRuntime) -> Result<(), Fail> {
    are_matched(&rt, rt.alloc(), &SIDE_CASES)
}

static NEXT_CASES: [Case; 4] = [
    (
        "a page that is its own next",
        &[
            Fact::Seen(PageHead {
                page: PageNo(10),
                level: 1,
                first: Some(0),
                last: Some(0),
                last_child: PageNo(11),
                ..LEAF
            }),
            Fact::Child(IndexRow {
                child: PageNo(11),
                ..ROW
            }),
            Fact::Seen(PageHead {
                page: PageNo(11),
                next: PageNo(11),
                ..LEAF
            }),
        ],
        &[CheckError {
            number: 8936,
            page: 11,
            other: 11,
            ..WRONG
        }],
    ),
    (
        "a next that is nowhere",
        &[
            Fact::Seen(PageHead {
                page: PageNo(10),
                level: 1,
                first: Some(0),
                last: Some(0),
                last_child: PageNo(11),
                ..LEAF
            }),
            Fact::Child(IndexRow {
                child: PageNo(11),
                ..ROW
            }),
            Fact::Seen(PageHead {
                page: PageNo(11),
                next: PageNo(77),
                ..LEAF
            }),
        ],
        &[CheckError {
            number: 8981,
            page: 11,
            other: 77,
            ..WRONG
        }],
    ),
    (
        "a next that two others have",
        &[
            Fact::Seen(PageHead {
                page: PageNo(10),
                level: 1,
                first: Some(0),
                last: Some(0),
                last_child: PageNo(11),
                ..LEAF
            }),
            Fact::Child(IndexRow {
                child: PageNo(11),
                ..ROW
            }),
            Fact::Seen(PageHead {
                page: PageNo(11),
                next: PageNo(77),
                ..LEAF
            }),
            Fact::Seen(PageHead {
                page: PageNo(77),
                object: ObjId(3),
                ..LEAF
            }),
            Fact::Seen(PageHead {
                page: PageNo(77),
                object: ObjId(2),
                ..LEAF
            }),
        ],
        &[CheckError {
            number: 8982,
            page: 11,
            other: 77,
            value: 2,
            ..WRONG
        }],
    ),
    (
        "a page without parent, and one without page before",
        &[
            Fact::Seen(PageHead {
                page: PageNo(10),
                level: 1,
                first: Some(0),
                last: Some(0),
                last_child: PageNo(11),
                ..LEAF
            }),
            Fact::Child(IndexRow {
                child: PageNo(11),
                ..ROW
            }),
            Fact::Seen(PageHead {
                page: PageNo(11),
                ..LEAF
            }),
            Fact::Seen(PageHead {
                page: PageNo(12),
                first: Some(5),
                last: Some(5),
                ..LEAF
            }),
            Fact::Seen(PageHead {
                page: PageNo(13),
                prev: PageNo(99),
                first: Some(7),
                last: Some(7),
                ..LEAF
            }),
        ],
        &[
            CheckError {
                number: 8977,
                page: 12,
                ..WRONG
            },
            CheckError {
                number: 8979,
                page: 13,
                other: 99,
                ..WRONG
            },
        ],
    ),
];

#[test]
fn next_pages_are_matched(rt: HostRuntime) -> Result<(), Fail> {
    are_matched(&rt, rt.alloc(), &NEXT_CASES)
}

static CHILD_CASES: [Case; 3] = [
    (
        "a child on the level of its parent",
        &[
            Fact::Seen(PageHead {
                page: PageNo(10),
                level: 1,
                first: Some(0),
                last: Some(0),
                last_child: PageNo(11),
                ..LEAF
            }),
            Fact::Child(IndexRow {
                child: PageNo(11),
                ..ROW
            }),
            Fact::Seen(PageHead {
                page: PageNo(11),
                level: 1,
                first: Some(0),
                last: Some(0),
                ..LEAF
            }),
        ],
        &[CheckError {
            number: 8931,
            page: 11,
            other: 10,
            value: 1,
            ..WRONG
        }],
    ),
    (
        "a child that another has",
        &[
            Fact::Seen(PageHead {
                page: PageNo(10),
                level: 1,
                first: Some(0),
                last: Some(50),
                last_child: PageNo(77),
                ..LEAF
            }),
            Fact::Child(IndexRow {
                next_key: Some(50),
                child: PageNo(11),
                ..ROW
            }),
            Fact::Child(IndexRow {
                slot: 1,
                key: 50,
                child: PageNo(77),
                before: PageNo(11),
                ..ROW
            }),
            Fact::Seen(PageHead {
                page: PageNo(11),
                ..LEAF
            }),
            Fact::Seen(PageHead {
                page: PageNo(77),
                object: ObjId(2),
                ..LEAF
            }),
        ],
        &[CheckError {
            number: 8925,
            page: 77,
            other: 10,
            slot: 1,
            value: 2,
            ..WRONG
        }],
    ),
    (
        "a child that is nowhere but a next",
        &[
            Fact::Seen(PageHead {
                page: PageNo(10),
                level: 1,
                first: Some(0),
                last: Some(50),
                last_child: PageNo(77),
                ..LEAF
            }),
            Fact::Child(IndexRow {
                next_key: Some(50),
                child: PageNo(11),
                ..ROW
            }),
            Fact::Child(IndexRow {
                slot: 1,
                key: 50,
                child: PageNo(77),
                before: PageNo(11),
                ..ROW
            }),
            Fact::Seen(PageHead {
                page: PageNo(11),
                next: PageNo(77),
                ..LEAF
            }),
        ],
        &[CheckError {
            number: 8976,
            page: 77,
            other: 10,
            slot: 1,
            ..WRONG
        }],
    ),
];

#[test]
fn children_are_matched(rt: HostRuntime) -> Result<(), Fail> {
    are_matched(&rt, rt.alloc(), &CHILD_CASES)
}

static KEY_CASES: [Case; 2] = [
    (
        "a tree without error, and heaps",
        &[
            Fact::Seen(PageHead {
                page: PageNo(10),
                level: 1,
                first: Some(0),
                last: Some(50),
                last_child: PageNo(12),
                ..LEAF
            }),
            Fact::Child(IndexRow {
                next_key: Some(50),
                child: PageNo(11),
                ..ROW
            }),
            Fact::Child(IndexRow {
                slot: 1,
                key: 50,
                child: PageNo(12),
                before: PageNo(11),
                ..ROW
            }),
            Fact::Seen(PageHead {
                page: PageNo(11),
                next: PageNo(12),
                first: Some(1),
                last: Some(49),
                ..LEAF
            }),
            Fact::Seen(PageHead {
                page: PageNo(12),
                prev: PageNo(11),
                first: Some(50),
                last: Some(99),
                ..LEAF
            }),
            Fact::Seen(PageHead {
                page: PageNo(13),
                object: ObjId(2),
                ..LEAF
            }),
            Fact::Seen(PageHead {
                page: PageNo(14),
                object: ObjId(2),
                next: PageNo(99),
                ..LEAF
            }),
            Fact::Seen(PageHead {
                page: PageNo(15),
                object: ObjId(3),
                next: PageNo(14),
                ..LEAF
            }),
        ],
        &[],
    ),
    (
        "a last key that is the next slot's",
        &[
            Fact::Seen(PageHead {
                page: PageNo(10),
                level: 1,
                first: Some(0),
                last: Some(50),
                last_child: PageNo(12),
                ..LEAF
            }),
            Fact::Child(IndexRow {
                next_key: Some(50),
                child: PageNo(11),
                ..ROW
            }),
            Fact::Child(IndexRow {
                slot: 1,
                key: 50,
                child: PageNo(12),
                before: PageNo(11),
                ..ROW
            }),
            Fact::Seen(PageHead {
                page: PageNo(11),
                next: PageNo(12),
                first: Some(1),
                last: Some(50),
                ..LEAF
            }),
            Fact::Seen(PageHead {
                page: PageNo(12),
                prev: PageNo(11),
                first: Some(60),
                last: Some(60),
                ..LEAF
            }),
        ],
        &[CheckError {
            number: 8934,
            page: 11,
            other: 10,
            value: 50,
            ..WRONG
        }],
    ),
];

#[test]
fn keys_are_matched(rt: HostRuntime) -> Result<(), Fail> {
    are_matched(&rt, rt.alloc(), &KEY_CASES)
}
