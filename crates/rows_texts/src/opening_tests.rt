// The file and the log of a run are opened.
use crate::expect::expect_same;
use pg_base::PageNo;
use run_file::{FileStop, LogWhy, open_file, open_log};
use spec_start::FileWhy;
use std::alloc::Global;
use std::process::Abort;
use vol_dev::{FailAt, MemLog, MemVolume};

const PAGE: usize = 8192;

fn put(file: &mut Vec<u8>, at: usize, bytes: &[u8]) {
    for (i, b) in bytes.iter().enumerate() {
        if let Some(cell) = at.checked_add(i).and_then(|place| file.get_mut(place)) {
            *cell = *b;
        }
    }
}

// Where bytes stand in a file, and which.
type Piece = (usize, &'static [u8]);

fn put_each(file: &mut Vec<u8>, pieces: &[Piece]) {
    for (at, bytes) in pieces {
        put(file, *at, bytes);
    }
}

static SYSTEM_PAGES: [Piece; 7] = [
    (0, &[1, 15]),
    (96, b"PGCHKDB1"),
    (104, &[1, 0, 2, 0]),
    (PAGE, &[1, 11, 0, 0, 1]),
    (2 * PAGE, &[1, 8, 0, 0, 2]),
    (3 * PAGE, &[1, 9, 0, 0, 3]),
    (9 * PAGE, &[1, 13, 0, 0, 9]),
];

static A_HEAP: [Piece; 4] = [
    (9 * PAGE + 96, &[1, 0, 0, 0, 1, 1, b't']),
    (9 * PAGE + 120, &[8]),
    (8 * PAGE, &[1, 10, 0, 0, 8, 0, 0, 0, 1]),
    (8 * PAGE + 104, &[10]),
];

// Its entry of the catalog as a clustered table, whose root is page 10.
static ITS_ROOT: [Piece; 2] = [(9 * PAGE + 100, &[2]), (9 * PAGE + 124, &[10])];

// A file, as the tests name it.
enum Made {
    /// An empty small file of so many pages.
    Empty(u8),
    /// The same of 16 pages with a heap `t`, object 1, IAM page 8, whose slot 0 holds page 10.
    WithHeap,
    /// The same with a clustered table in place of the heap.
    Clustered,
    /// Five bytes.
    Short,
}

fn zeros(rt: &impl Abort, alloc: Global, count: usize) -> Vec<u8> {
    Vec::from_elem(alloc, 0u8, count).expect(rt, "memory")
}

fn base(rt: &impl Abort, alloc: Global, pages: u8) -> Vec<u8> {
    let mut file = zeros(rt, alloc, PAGE * usize::from(pages));
    put_each(&mut file, &SYSTEM_PAGES);
    put(&mut file, 108, &[pages]);
    file
}

fn with_heap(rt: &impl Abort, alloc: Global) -> Vec<u8> {
    let mut file = base(rt, alloc, 16);
    put_each(&mut file, &A_HEAP);
    file
}

fn with_tree(rt: &impl Abort, alloc: Global) -> Vec<u8> {
    let mut file = with_heap(rt, alloc);
    put_each(&mut file, &ITS_ROOT);
    file
}

fn file_of(rt: &impl Abort, alloc: Global, made: &Made) -> Vec<u8> {
    match made {
        Made::Empty(pages) => base(rt, alloc, *pages),
        Made::WithHeap => with_heap(rt, alloc),
        Made::Clustered => with_tree(rt, alloc),
        Made::Short => zeros(rt, alloc, 5),
    }
}

// A file with bytes put into it, and why it isn't opened; none where it is.
type Case = (Made, usize, &'static [u8], Option<FileStop>);

const LATER: Option<FileStop> = Some(FileStop::Refused(FileWhy::Later));

const HEADER: Option<FileStop> = Some(FileStop::Refused(FileWhy::Header));

const VERSION: Option<FileStop> = Some(FileStop::Refused(FileWhy::Version));

const GEOMETRY: Option<FileStop> = Some(FileStop::Refused(FileWhy::Geometry));

const COUNT: Option<FileStop> = Some(FileStop::Refused(FileWhy::Count));

const ENTRIES: usize = 9 * PAGE + 96;

static CASES: [Case; 26] = [
    (Made::Empty(16), 0, &[], None),
    (Made::Empty(88), 0, &[], None),
    (Made::Empty(96), 0, &[], None),
    (Made::WithHeap, 0, &[], None),
    (Made::Short, 0, &[], Some(FileStop::Refused(FileWhy::Size))),
    (Made::WithHeap, 1, &[14], HEADER),
    (Made::WithHeap, 104, &[9], VERSION),
    (Made::WithHeap, 106, &[3], GEOMETRY),
    (Made::WithHeap, 108, &[24], COUNT),
    (Made::Empty(96), 104, &[9], VERSION),
    // The standard geometry, a wrong PFS page, a marked extent, one page in two slots, page 9 in a slot, a heap more.
    (Made::WithHeap, 106, &[1], None),
    (Made::WithHeap, PAGE + 1, &[12], None),
    (Made::WithHeap, 8 * PAGE + 136, &[8], None),
    (Made::WithHeap, 8 * PAGE + 108, &[10], None),
    (Made::WithHeap, 8 * PAGE + 108, &[9], None),
    (
        Made::WithHeap,
        ENTRIES + 40,
        &[2, 0, 0, 0, 1, 1, b'u'],
        None,
    ),
    // A clustered table in the first entry, in both geometries, beside a heap, and in the last entry.
    (Made::Clustered, 0, &[], LATER),
    (Made::Clustered, 106, &[1], LATER),
    (
        Made::Clustered,
        ENTRIES + 40,
        &[2, 0, 0, 0, 1, 1, b'u'],
        LATER,
    ),
    (
        Made::WithHeap,
        ENTRIES + 127 * 40,
        &[2, 0, 0, 0, 2, 1, b'u'],
        LATER,
    ),
    (Made::Clustered, 104, &[9], VERSION),
    // Page 9 says another type or number, or its catalog fails: a kind that there isn't, an id twice, a name twice.
    (Made::Clustered, 9 * PAGE + 1, &[12], None),
    (Made::Clustered, 9 * PAGE + 4, &[8], None),
    (Made::Clustered, ENTRIES + 4, &[3], None),
    (
        Made::Clustered,
        ENTRIES + 40,
        &[1, 0, 0, 0, 1, 1, b'u'],
        None,
    ),
    (
        Made::Clustered,
        ENTRIES + 40,
        &[2, 0, 0, 0, 1, 1, b't'],
        None,
    ),
];

// Opens a file whose reads fail so.
fn stop_of(
    rt: &impl Abort,
    alloc: Global,
    file: Vec<u8>,
    failing: Vec<FailAt>,
) -> Option<FileStop> {
    let mut volume = MemVolume::of(file, failing);
    open_file(alloc, &mut volume).err()
}

fn expect_opening(rt: &impl Abort, alloc: Global, case: &Case) {
    let (made, at, bytes, wanted) = case;
    let mut file = file_of(rt, alloc, made);
    put(&mut file, *at, bytes);
    expect_same(rt, &stop_of(rt, alloc, file, Vec::new(alloc)), wanted);
}

#[test]
fn a_file_is_opened_where_it_passes_and_has_no_clustered_table(rt: HostRuntime) {
    for case in &CASES {
        expect_opening(&rt, rt.alloc(), case);
    }
}

// The first read of each page but page 0 fails.
fn each_but_page_0(rt: &impl Abort, alloc: Global) -> Vec<FailAt> {
    let mut failing = Vec::new(alloc);
    for page in 1..16 {
        let fail = FailAt {
            page: PageNo(page),
            write: false,
            nth: 1,
        };
        failing.push(fail).expect(rt, "memory");
    }
    failing
}

// Why a file in which each page but page 0 fails isn't opened, with these bytes at a place of page 0.
fn why_behind(rt: &impl Abort, alloc: Global, at: usize, bytes: &[u8]) -> Option<FileStop> {
    let mut file = base(rt, alloc, 16);
    put(&mut file, at, bytes);
    stop_of(rt, alloc, file, each_but_page_0(rt, alloc))
}

static PAGE_0_CASES: [(usize, &[u8], Option<FileStop>); 6] = [
    (1, &[14], HEADER),
    (104, &[9], VERSION),
    (106, &[3], GEOMETRY),
    (108, &[24], COUNT),
    (106, &[1], Some(FileStop::Failed)),
    (0, &[], Some(FileStop::Failed)),
];

#[test]
fn no_page_is_read_before_page_0_has_passed(rt: HostRuntime) {
    for (at, bytes, wanted) in &PAGE_0_CASES {
        expect_same(&rt, &why_behind(&rt, rt.alloc(), *at, bytes), wanted);
    }
}

// The page whose nth read fails, and why the file isn't opened then.
static FAILING: [(u32, u32, Option<FileStop>); 2] = [(0, 2, None), (7, 1, Some(FileStop::Failed))];

fn why_failing(rt: &impl Abort, alloc: Global, page: u32, nth: u32) -> Option<FileStop> {
    let fail = FailAt {
        page: PageNo(page),
        write: false,
        nth,
    };
    let failing = Vec::from_elem(alloc, fail, 1).expect(rt, "memory");
    stop_of(rt, alloc, base(rt, alloc, 16), failing)
}

#[test]
fn page_0_is_read_once_and_each_page_is_read(rt: HostRuntime) {
    for (page, nth, wanted) in &FAILING {
        expect_same(&rt, &why_failing(&rt, rt.alloc(), *page, *nth), wanted);
    }
}

// A log's bytes, whether it fails, and how it is opened.
static LOGS: [(&[u8], bool, Result<(), LogWhy>); 3] = [
    (&[], false, Ok(())),
    (&[9], false, Err(LogWhy::Later)),
    (&[], true, Err(LogWhy::Failed)),
];

#[test]
fn a_log_is_taken_where_it_is_empty(rt: HostRuntime) {
    for (bytes, fails, wanted) in &LOGS {
        let bytes = Vec::from_slice(rt.alloc(), bytes).expect(&rt, "memory");
        let mut log = MemLog::of(bytes, *fails, None);
        expect_same(&rt, &open_log(rt.alloc(), &mut log), wanted);
    }
}
