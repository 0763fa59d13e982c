// INSERT over a view in memory: the first page with room, or the first refusal in the order of reading.
use crate::made::{HEAP, locks_on, pages_of};
use db_alloc::FindStop;
use db_heap::{InsertStop, heap_insert};
use db_locks::{LockTable, MemView, PageStop, PlanPages};
use pg_base::{Geometry, ObjId, Page, PageNo, Resource, Tran};
use rows_files::pieces::Piece;
use rows_files::pieces::Piece::{Bytes, Pfs, Rows};
use spec_script::Name;
use std::alloc::Global;
use std::test::Fail;

// What another transaction holds, what INSERT answers, which pages it changes, and what it takes.
#[derive(Drop)]
struct Insert {
    name: &'static str,
    parts: &'static [&'static [Piece]],
    held: &'static [Resource],
    result: Result<(), InsertStop>,
    changed: &'static [u32],
    taken: &'static [Resource],
}

// Page 10 has six bytes left: 8,096 less two rows of 11, seven of 1,024 and one of 880, and two for each.
const FULL: &[Piece] = &[
    Rows(10, &[(3, 1024), (4, 1024), (5, 1024), (6, 1024)]),
    Rows(10, &[(7, 1024), (8, 1024), (9, 1024), (10, 880)]),
];

static INSERTS: [Insert; 10] = [
    Insert {
        name: "the first page",
        parts: &[HEAP],
        held: &[Resource::Page(PageNo(12))],
        result: Ok(()),
        changed: &[1, 10],
        taken: &[
            Resource::Table(ObjId(1)),
            Resource::Byte(PageNo(10)),
            Resource::Page(PageNo(10)),
        ],
    },
    Insert {
        name: "a page that is full by its byte is passed over",
        parts: &[HEAP, &[Pfs(10, 0x64)]],
        held: &[],
        result: Ok(()),
        changed: &[1, 11],
        taken: &[
            Resource::Table(ObjId(1)),
            Resource::Byte(PageNo(11)),
            Resource::Page(PageNo(11)),
        ],
    },
    Insert {
        name: "it is not read, held or bad",
        parts: &[HEAP, &[Pfs(10, 0x64), Bytes(10, 8, &[2])]],
        held: &[Resource::Page(PageNo(10))],
        result: Ok(()),
        changed: &[1, 11],
        taken: &[
            Resource::Table(ObjId(1)),
            Resource::Byte(PageNo(11)),
            Resource::Page(PageNo(11)),
        ],
    },
    Insert {
        name: "a page without room is passed over",
        parts: &[HEAP, FULL],
        held: &[],
        result: Ok(()),
        changed: &[1, 11],
        taken: &[
            Resource::Table(ObjId(1)),
            Resource::Byte(PageNo(11)),
            Resource::Page(PageNo(11)),
        ],
    },
    Insert {
        name: "the page of a marked extent",
        parts: &[HEAP, FULL, &[Pfs(11, 0x64)]],
        held: &[],
        result: Ok(()),
        changed: &[1, 17],
        taken: &[
            Resource::Table(ObjId(1)),
            Resource::Byte(PageNo(17)),
            Resource::Page(PageNo(17)),
        ],
    },
    Insert {
        name: "no page has room",
        parts: &[HEAP, FULL, &[Pfs(11, 0x64), Pfs(17, 0x44)]],
        held: &[],
        result: Err(InsertStop::NoRoom),
        changed: &[],
        taken: &[Resource::Table(ObjId(1))],
    },
    Insert {
        name: "the table is held",
        parts: &[HEAP],
        held: &[Resource::Table(ObjId(1))],
        result: Err(InsertStop::Find(FindStop::Page(PageStop::Held {
            resource: Resource::Table(ObjId(1)),
            by: Tran(2),
        }))),
        changed: &[],
        taken: &[],
    },
    Insert {
        name: "a PFS byte is held",
        parts: &[HEAP],
        held: &[Resource::Byte(PageNo(16))],
        result: Err(InsertStop::Find(FindStop::Page(PageStop::Held {
            resource: Resource::Byte(PageNo(16)),
            by: Tran(2),
        }))),
        changed: &[],
        taken: &[],
    },
    Insert {
        name: "the first page is held, and the second has room",
        parts: &[HEAP],
        held: &[Resource::Page(PageNo(10))],
        result: Err(InsertStop::Find(FindStop::Page(PageStop::Held {
            resource: Resource::Page(PageNo(10)),
            by: Tran(2),
        }))),
        changed: &[],
        taken: &[Resource::Table(ObjId(1))],
    },
    Insert {
        name: "the first page is bad, and the second has room",
        parts: &[HEAP, &[Bytes(10, 8, &[2])]],
        held: &[],
        result: Err(InsertStop::Find(FindStop::Page(PageStop::Bad(PageNo(10))))),
        changed: &[],
        taken: &[Resource::Table(ObjId(1))],
    },
];

fn page_numbers(alloc: Global, pages: &[PageNo]) -> Result<Vec<u32>, Fail> {
    let mut numbers = Vec::new(alloc);
    for p in pages {
        numbers.push(p.0)?;
    }
    Ok(numbers)
}

// What a row of 12 bytes does to a file of these pages.
fn expect_insert(
    alloc: Global,
    insert: &Insert,
    pages: Vec<Page>,
    locks: LockTable,
) -> Result<(), Fail> {
    if pages.len() != 24 {
        return Err(Fail::from("24 pages"));
    }
    let mut view = MemView::begin(alloc, Geometry::Small, 1, pages, locks)?;
    let name = Name::from_string(String::from_str(alloc, "t")?);
    let result = heap_insert(alloc, &mut view, Geometry::Small, 24, &name, 9, b"x");
    let changed = page_numbers(alloc, view.changed())?;
    let is_right = result == insert.result
        && changed.as_slice() == insert.changed
        && view.taken() == insert.taken;
    if !is_right {
        return Err(Fail::new(format_args!("{}: {result:?}, {changed:?}", insert.name)));
    }
    Ok(())
}

#[test]
fn a_row_goes_on_the_first_page_with_room(rt: HostRuntime) -> Result<(), Fail> {
    let alloc = rt.alloc();
    for insert in INSERTS.iter() {
        let pages = pages_of(alloc, insert.parts)?;
        let locks = locks_on(alloc, insert.held)?;
        expect_insert(alloc, insert, pages, locks)?;
    }
    Ok(())
}
