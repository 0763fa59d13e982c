// The report of a file's maps and pages, and which pages a scan reads.
ghost use Rattle.std.specs.Prelude.{◌≡◌, None, false, []};

use crate::made::{HEAP, MARKED, MIXED, MadeMap, MadeRow, TAKEN, WRONG, expect_errors, map_of};
use ck_facts::{AllocMap, CheckError, CheckReport, PageUse, TableLine};
use ck_scan::{SteppedScan, scan_one};
use pg_base::{Header, ObjId, Page, PageNo, ReadStop, SnapReader, put_u16, write_header};
use std::alloc::Global;
use std::process::Abort;
use std::test::Fail;

// Heap pages of object 1, each with one row, but for page 17, which says that it is page 18. It counts the pages
// that are read.
#[derive(Drop)]
struct HeapPages {
    pages: u32,
    reads: u32,
}

impl SnapReader for HeapPages {
    ghost use Rattle.std.proofs.lemmas.Option.{none-some};

    ghost pages = { λ r. r.pages };

    ghost image = { λ _. None };

    ghost ended = { λ _. false };

    ghost faults = { λ _. 0 };

    ghost failed = { λ _. None };

    ghost bound = { λ _. [] };

    ghost whole = { λ _ x at. absurd (none-some x at) };

    fn page(&mut self, p: PageNo, into: &mut Page) -> Result<(), ReadStop> {
        self.reads = self.reads.saturating_add(1);
        let says = if p.0 == 17 { 18 } else { p.0 };
        heap_page(into, says);
        Ok(())
    }
}

const ROW: [u8; 12] = [0x10, 12, 0, 1, 0, 0, 0, 0, 0, 0, 0, b'a'];

static HEADER: Header = Header {
    page_type: 1,
    level: 0,
    page_id: PageNo(0),
    object: ObjId(1),
    prev: PageNo(0),
    next: PageNo(0),
    slots: 1,
    free_count: 8082,
    free_from: 108,
    ghosts: 0,
};

/// A heap page of object 1 with one row.
pub fn heap_page(page: &mut Page, p: u32) {
    let header = Header {
        page_id: PageNo(p),
        ..HEADER
    };
    write_header(page, &header);
    page.bytes[96..108].copy_from_slice(&ROW);
    put_u16(page, 8190, 96);
}

// Heaps 1 and 2 have pages 11 and 12 in their chains, and pages in slots. Heap 1 marks extent 2, of which 16 and 17
// are allocated.
const TWO_HEAPS: MadeMap = MadeMap {
    objects: &[
        MadeRow {
            first_iam: 11,
            ..HEAP
        },
        MadeRow {
            id: 2,
            name: "u",
            first_iam: 12,
            ..HEAP
        },
    ],
    chains: &[],
    uses: &[],
    extents: &[TAKEN, MIXED, MARKED],
    pfs: &[
        0x44, 0x44, 0x44, 0x44, 0, 0, 0, 0, 0, 0x64, 0x60, 0x70, 0x70, 0, 0, 0, 0x40, 0x40, 0, 0,
        0, 0, 0, 0,
    ],
};

// The report of these maps, and how many pages are read.
fn scanned(
    alloc: Global,
    map: &MadeMap,
    system: &[CheckError],
) -> Result<(CheckReport, u32), Fail> {
    let mut reader = HeapPages {
        pages: 24,
        reads: 0,
    };
    let map = map_of(alloc, 24, map, system)?;
    let report = scan_one(alloc, &mut reader, &map).ok().ok_or("no report")?;
    Ok((report, reader.reads))
}

// What a case is called, its maps, how many rows object 1 has in so many pages, and how many pages are read.
type Case = (&'static str, MadeMap, u64, u32);

static CASES: [Case; 4] = [
    (
        "chains alone",
        MadeMap {
            uses: &[
                PageUse {
                    page: 11,
                    object: 1,
                    place: 8,
                },
                PageUse {
                    page: 12,
                    object: 2,
                    place: 8,
                },
            ],
            ..TWO_HEAPS
        },
        1,
        2,
    ),
    (
        "a page that one object owns",
        MadeMap {
            uses: &[
                PageUse {
                    page: 10,
                    object: 1,
                    place: 0,
                },
                PageUse {
                    page: 11,
                    object: 1,
                    place: 8,
                },
                PageUse {
                    page: 12,
                    object: 2,
                    place: 8,
                },
            ],
            ..TWO_HEAPS
        },
        2,
        3,
    ),
    (
        "a page that two objects own",
        MadeMap {
            uses: &[
                PageUse {
                    page: 10,
                    object: 1,
                    place: 0,
                },
                PageUse {
                    page: 10,
                    object: 2,
                    place: 0,
                },
                PageUse {
                    page: 11,
                    object: 1,
                    place: 8,
                },
                PageUse {
                    page: 12,
                    object: 2,
                    place: 8,
                },
            ],
            ..TWO_HEAPS
        },
        2,
        3,
    ),
    (
        "pages that aren't ordinary",
        MadeMap {
            uses: &[
                PageUse {
                    page: 3,
                    object: 1,
                    place: 0,
                },
                PageUse {
                    page: 9,
                    object: 2,
                    place: 0,
                },
                PageUse {
                    page: 11,
                    object: 1,
                    place: 8,
                },
                PageUse {
                    page: 12,
                    object: 2,
                    place: 8,
                },
            ],
            ..TWO_HEAPS
        },
        1,
        2,
    ),
];

/// The line of an object with one row on each of its pages.
pub fn line(object: u32, rows: u64) -> TableLine {
    TableLine {
        object,
        rows,
        pages: rows,
    }
}

pub fn expect_tables(rt: &impl Abort, found: &CheckReport, wanted: &[TableLine], name: &str) {
    assert_eq!(rt; found.tables.as_slice(), wanted, "{name}");
}

fn expect_reads(rt: &impl Abort, found: u32, wanted: u32, name: &str) {
    assert_eq!(rt; found, wanted, "{name}");
}

// Pages 16 and 17 are read in each of these, and 17 fails its test. A page that two objects own is read once, and
// seen by the object that it names. A page that isn't ordinary isn't read, nor is one of a chain.
#[test]
fn each_page_that_objects_own_is_read_once(rt: HostRuntime) -> Result<(), Fail> {
    for (name, map, rows, wanted) in CASES.iter() {
        let (report, reads) = scanned(rt.alloc(), map, &[])?;
        expect_tables(&rt, &report, &[line(1, *rows), line(2, 0)], name);
        expect_reads(&rt, reads, *wanted, name);
    }
    Ok(())
}

static ONE_USE: MadeMap = MadeMap {
    uses: &[PageUse {
        page: 10,
        object: 1,
        place: 0,
    }],
    ..TWO_HEAPS
};

static SYSTEM: [CheckError; 1] = [CheckError {
    number: 8946,
    object: 0,
    page: 2,
    value: 9,
    ..WRONG
}];

#[test]
fn system_errors_stand_alone(rt: HostRuntime) -> Result<(), Fail> {
    let (report, reads) = scanned(rt.alloc(), &ONE_USE, &SYSTEM)?;
    expect_errors(&rt, report.errors.as_slice(), &SYSTEM, "system");
    expect_tables(&rt, &report, &[], "system");
    expect_reads(&rt, reads, 0, "system");
    Ok(())
}

// How many pages have been read behind each extent of these maps, and the report.
fn stepped(alloc: Global, map: &AllocMap) -> Result<(Vec<u32>, CheckReport), Fail>
    requires { map.now.pages ≡ 24 }
{
    let mut reader = HeapPages {
        pages: 24,
        reads: 0,
    };
    let mut reads = Vec::new(alloc);
    let mut scan = SteppedScan::begin(alloc, map)?;
    'extents: while scan.has_more(map) {
        scan.read_next(alloc, &mut reader, map)
            .ok()
            .ok_or("an extent")?;
        reads.push(reader.reads)?;
    }
    Ok((reads, scan.finish(alloc, map)?))
}

// Page 17 says that it is page 18. Pages 10 and 16 have a row, of which their PFS bytes tell nothing.
static STEPPED: [CheckError; 3] = [
    CheckError {
        number: 8909,
        page: 17,
        value: 18,
        ..WRONG
    },
    CheckError {
        number: 8914,
        page: 10,
        value: 0x60,
        ..WRONG
    },
    CheckError {
        number: 8914,
        page: 16,
        value: 0x40,
        ..WRONG
    },
];

// No object owns a page of extent 0, object 1 owns page 10 of extent 1, and pages 16 and 17 of extent 2.
#[test]
fn a_scan_reads_one_extent_at_a_time(rt: HostRuntime) -> Result<(), Fail> {
    let (_, map, _, _) = &CASES[1];
    let map = map_of(rt.alloc(), 24, map, &[])?;
    let (reads, report) = stepped(rt.alloc(), &map)?;
    assert_eq!(rt; reads.as_slice(), &[0, 1, 3][..]);
    expect_errors(&rt, report.errors.as_slice(), &STEPPED, "stepped");
    expect_tables(&rt, &report, &[line(1, 2), line(2, 0)], "stepped");
    Ok(())
}

#[test]
fn system_errors_leave_no_extent(rt: HostRuntime) -> Result<(), Fail> {
    let map = map_of(rt.alloc(), 24, &ONE_USE, &SYSTEM)?;
    let (reads, report) = stepped(rt.alloc(), &map)?;
    assert!(rt; reads.is_empty());
    expect_errors(&rt, report.errors.as_slice(), &SYSTEM, "stepped");
    Ok(())
}
