// COUNT over a view in memory: how many rows, or the first refusal in the order of reading.
use crate::made::{HEAP, locks_on, pages_of};
use db_alloc::FindStop;
use db_heap::heap_count;
use db_locks::{LockTable, MemView, PageStop};
use pg_base::{ExtentNo, Geometry, ObjId, Page, PageNo, Resource, Tran};
use rows_files::pieces::Piece;
use rows_files::pieces::Piece::Bytes;
use spec_script::Name;
use std::alloc::Global;
use std::test::Fail;

// What another transaction holds, and what COUNT answers.
#[derive(Drop)]
struct Count {
    name: &'static str,
    parts: &'static [&'static [Piece]],
    held: &'static [Resource],
    counts: Result<u64, FindStop>,
}

static COUNTS: [Count; 16] = [
    Count {
        name: "three rows",
        parts: &[HEAP],
        held: &[],
        counts: Ok(3),
    },
    Count {
        name: "what another holds elsewhere is no matter",
        parts: &[HEAP],
        held: &[
            Resource::Table(ObjId(2)),
            Resource::Page(PageNo(12)),
            Resource::Byte(PageNo(12)),
            Resource::Extent(ExtentNo(1)),
        ],
        counts: Ok(3),
    },
    Count {
        name: "no table",
        parts: &[],
        held: &[],
        counts: Err(FindStop::NoTable),
    },
    Count {
        name: "the catalog is held, whatever page 9 is",
        parts: &[HEAP, &[Bytes(9, 1, &[1])]],
        held: &[Resource::Catalog],
        counts: Err(FindStop::Page(PageStop::Held {
            resource: Resource::Catalog,
            by: Tran(2),
        })),
    },
    Count {
        name: "page 9 is none of the catalog",
        parts: &[HEAP, &[Bytes(9, 1, &[1])]],
        held: &[Resource::Table(ObjId(1))],
        counts: Err(FindStop::Page(PageStop::Bad(PageNo(9)))),
    },
    Count {
        name: "the table is held, whatever its chain is",
        parts: &[HEAP, &[Bytes(8, 8, &[2])]],
        held: &[Resource::Table(ObjId(1))],
        counts: Err(FindStop::Page(PageStop::Held {
            resource: Resource::Table(ObjId(1)),
            by: Tran(2),
        })),
    },
    Count {
        name: "the chain begins behind the file",
        parts: &[HEAP, &[Bytes(9, 120, &[99])]],
        held: &[],
        counts: Err(FindStop::Page(PageStop::Bad(PageNo(9)))),
    },
    Count {
        name: "its page is held, whatever that is",
        parts: &[HEAP, &[Bytes(8, 8, &[2])]],
        held: &[Resource::Page(PageNo(8))],
        counts: Err(FindStop::Page(PageStop::Held {
            resource: Resource::Page(PageNo(8)),
            by: Tran(2),
        })),
    },
    Count {
        name: "its page is another object's",
        parts: &[HEAP, &[Bytes(8, 8, &[2])]],
        held: &[Resource::Byte(PageNo(10))],
        counts: Err(FindStop::Page(PageStop::Bad(PageNo(8)))),
    },
    Count {
        name: "a slot holds a page behind the file",
        parts: &[HEAP, &[Bytes(8, 112, &[99])]],
        held: &[Resource::Byte(PageNo(10))],
        counts: Err(FindStop::Page(PageStop::Bad(PageNo(8)))),
    },
    Count {
        name: "a PFS byte is held, whatever the PFS page is",
        parts: &[HEAP, &[Bytes(1, 1, &[1])]],
        held: &[Resource::Byte(PageNo(10))],
        counts: Err(FindStop::Page(PageStop::Held {
            resource: Resource::Byte(PageNo(10)),
            by: Tran(2),
        })),
    },
    Count {
        name: "the PFS page is none",
        parts: &[HEAP, &[Bytes(1, 1, &[1])]],
        held: &[Resource::Page(PageNo(10))],
        counts: Err(FindStop::Page(PageStop::Bad(PageNo(1)))),
    },
    Count {
        name: "a byte of the marked extent is held, of a page that is not allocated",
        parts: &[HEAP],
        held: &[Resource::Byte(PageNo(23)), Resource::Page(PageNo(10))],
        counts: Err(FindStop::Page(PageStop::Held {
            resource: Resource::Byte(PageNo(23)),
            by: Tran(2),
        })),
    },
    Count {
        name: "the first page is held, whatever the second is",
        parts: &[HEAP, &[Bytes(11, 8, &[2])]],
        held: &[Resource::Page(PageNo(10))],
        counts: Err(FindStop::Page(PageStop::Held {
            resource: Resource::Page(PageNo(10)),
            by: Tran(2),
        })),
    },
    Count {
        name: "the second fails its test",
        parts: &[HEAP, &[Bytes(11, 8, &[2])]],
        held: &[Resource::Page(PageNo(17))],
        counts: Err(FindStop::Page(PageStop::Bad(PageNo(11)))),
    },
    Count {
        name: "the third is held",
        parts: &[HEAP],
        held: &[Resource::Page(PageNo(17))],
        counts: Err(FindStop::Page(PageStop::Held {
            resource: Resource::Page(PageNo(17)),
            by: Tran(2),
        })),
    },
];

fn counted(
    alloc: Global,
    pages: Vec<Page>,
    locks: LockTable,
) -> Result<Result<u64, FindStop>, Fail> {
    if pages.len() != 24 {
        return Err(Fail::from("24 pages"));
    }
    let mut view = MemView::begin(alloc, Geometry::Small, 1, pages, locks)?;
    let name = Name::from_string(String::from_str(alloc, "t")?);
    Ok(heap_count(alloc, &mut view, Geometry::Small, 24, &name))
}

fn expect_count(alloc: Global, count: &Count) -> Result<(), Fail> {
    let pages = pages_of(alloc, count.parts)?;
    let found = counted(alloc, pages, locks_on(alloc, count.held)?)?;
    if found != count.counts {
        return Err(Fail::new(format_args!("{}: {found:?}", count.name)));
    }
    Ok(())
}

#[test]
fn rows_are_counted_or_the_first_refusal_is_told(rt: HostRuntime) -> Result<(), Fail> {
    for count in COUNTS.iter() {
        expect_count(rt.alloc(), count)?;
    }
    Ok(())
}
