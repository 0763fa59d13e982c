// SELECT over a view in memory: the payloads of a key in order, or the first refusal in the order of reading.
use crate::made::{HEAP, locks_on, pages_of};
use db_alloc::FindStop;
use db_heap::heap_select;
use db_locks::{LockTable, MemView, PageStop};
use pg_base::{Geometry, ObjId, Page, PageNo, Resource, Tran};
use rows_files::pieces::Piece;
use rows_files::pieces::Piece::{Bytes, Key, Rows};
use spec_log::Values;
use spec_script::Name;
use std::alloc::Global;
use std::test::Fail;

// What another transaction holds, and what SELECT of a key answers.
#[derive(Drop)]
struct Select {
    name: &'static str,
    parts: &'static [&'static [Piece]],
    held: &'static [Resource],
    key: u64,
    finds: Result<&'static [&'static [u8]], FindStop>,
}

// Rows of key 7 on three pages: `bb`, `c` and 0xFF behind the two rows of page 10, `b` and `ba` behind the row of page
// 11, `b` on page 17. `a` of key 8 stands between.
const SEVENS: &[Piece] = &[
    Rows(10, &[(7, 13), (8, 12), (7, 12), (7, 12)]),
    Rows(11, &[(7, 12), (7, 13)]),
    Rows(17, &[(7, 12)]),
    Bytes(10, 129, b"bb"),
    Bytes(10, 142, b"a"),
    Bytes(10, 154, b"c"),
    Bytes(10, 166, &[0xFF]),
    Bytes(11, 118, b"b"),
    Bytes(11, 130, b"ba"),
    Bytes(17, 107, b"b"),
];

static SELECTS: [Select; 14] = [
    Select {
        name: "no row",
        parts: &[HEAP, SEVENS],
        held: &[],
        key: 9,
        finds: Ok(&[]),
    },
    Select {
        name: "one without a byte",
        parts: &[HEAP, SEVENS],
        held: &[],
        key: 2,
        finds: Ok(&[b""]),
    },
    Select {
        name: "one",
        parts: &[HEAP, SEVENS],
        held: &[],
        key: 8,
        finds: Ok(&[b"a"]),
    },
    Select {
        name: "some on three pages, in the order of their bytes",
        parts: &[HEAP, SEVENS],
        held: &[],
        key: 7,
        finds: Ok(&[b"b", b"b", b"ba", b"bb", b"c", &[0xFF]]),
    },
    Select {
        name: "a key has eight bytes",
        parts: &[HEAP, &[Key(11, 99, 4_294_967_299)]],
        held: &[],
        key: 3,
        finds: Ok(&[]),
    },
    Select {
        name: "and is found by all of them",
        parts: &[HEAP, &[Key(11, 99, 4_294_967_299)]],
        held: &[],
        key: 4_294_967_299,
        finds: Ok(&[b""]),
    },
    Select {
        name: "what another holds elsewhere is no matter",
        parts: &[HEAP, SEVENS],
        held: &[Resource::Table(ObjId(2)), Resource::Page(PageNo(12))],
        key: 8,
        finds: Ok(&[b"a"]),
    },
    Select {
        name: "no table",
        parts: &[],
        held: &[],
        key: 7,
        finds: Err(FindStop::NoTable),
    },
    Select {
        name: "the table is held",
        parts: &[HEAP, SEVENS],
        held: &[Resource::Table(ObjId(1)), Resource::Page(PageNo(10))],
        key: 7,
        finds: Err(FindStop::Page(PageStop::Held {
            resource: Resource::Table(ObjId(1)),
            by: Tran(2),
        })),
    },
    Select {
        name: "a PFS byte is held",
        parts: &[HEAP, SEVENS],
        held: &[Resource::Byte(PageNo(23)), Resource::Page(PageNo(10))],
        key: 7,
        finds: Err(FindStop::Page(PageStop::Held {
            resource: Resource::Byte(PageNo(23)),
            by: Tran(2),
        })),
    },
    Select {
        name: "a page without such a row is held",
        parts: &[HEAP, SEVENS],
        held: &[Resource::Page(PageNo(17))],
        key: 8,
        finds: Err(FindStop::Page(PageStop::Held {
            resource: Resource::Page(PageNo(17)),
            by: Tran(2),
        })),
    },
    Select {
        name: "the first page is held, whatever the second is",
        parts: &[HEAP, SEVENS, &[Bytes(11, 8, &[2])]],
        held: &[Resource::Page(PageNo(10))],
        key: 7,
        finds: Err(FindStop::Page(PageStop::Held {
            resource: Resource::Page(PageNo(10)),
            by: Tran(2),
        })),
    },
    Select {
        name: "the second fails its test",
        parts: &[HEAP, SEVENS, &[Bytes(11, 8, &[2])]],
        held: &[Resource::Page(PageNo(17))],
        key: 8,
        finds: Err(FindStop::Page(PageStop::Bad(PageNo(11)))),
    },
    Select {
        name: "a row that says a longer one fails it",
        parts: &[HEAP, SEVENS, &[Bytes(17, 97, &[13])]],
        held: &[],
        key: 7,
        finds: Err(FindStop::Page(PageStop::Bad(PageNo(17)))),
    },
];

fn are_payloads(found: &Values<Values<u8>>, wanted: &[&[u8]]) -> bool {
    found.count() == wanted.len()
        && found
            .as_slice()
            .iter()
            .zip(wanted.iter())
            .all(|(payload, bytes)| payload.as_slice() == *bytes)
}

fn is_found(found: &Result<Values<Values<u8>>, FindStop>, select: &Select) -> bool {
    match (found, &select.finds) {
        (Ok(payloads), Ok(wanted)) => are_payloads(payloads, wanted),
        (Err(stop), Err(due)) => *stop == *due,
        _ => false,
    }
}

fn selected(
    alloc: Global,
    pages: Vec<Page>,
    locks: LockTable,
    key: u64,
) -> Result<Result<Values<Values<u8>>, FindStop>, Fail> {
    if pages.len() != 24 {
        return Err(Fail::from("24 pages"));
    }
    let mut view = MemView::begin(alloc, Geometry::Small, 1, pages, locks)?;
    let name = Name::from_string(String::from_str(alloc, "t")?);
    Ok(heap_select(alloc, &mut view, Geometry::Small, 24, &name, key))
}

fn expect_select(alloc: Global, select: &Select) -> Result<(), Fail> {
    let pages = pages_of(alloc, select.parts)?;
    let found = selected(alloc, pages, locks_on(alloc, select.held)?, select.key)?;
    if !is_found(&found, select) {
        return Err(Fail::new(format_args!("{}: {found:?}", select.name)));
    }
    Ok(())
}

#[test]
fn payloads_are_found_or_the_first_refusal_is_told(rt: HostRuntime) -> Result<(), Fail> {
    for select in SELECTS.iter() {
        expect_select(rt.alloc(), select)?;
    }
    Ok(())
}
