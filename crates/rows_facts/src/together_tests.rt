// Scans by several workers: their report, a reader that fails, and that they work side by side.
ghost use Rattle.std.specs.Prelude.{◌≡◌, ◌<◌, ◌≤◌, All, None, IfOk, false, [], option_map, vec_len};

use crate::made::{HEAP, MARKED, MIXED, MadeMap, MadeRow, TAKEN, WRONG, expect_errors, map_of};
use crate::scan_tests::{expect_tables, heap_page, line};
use ck_facts::{AllocMap, CheckError, CheckReport, PageUse};
use ck_scan::{Gate, NoGate, Point, scan};
use pg_base::{NoMemory, Page, PageNo, ReadStop, SnapReader};
use std::alloc::Global;
use std::process::Abort;
use std::sync::atomic::{AtomicU64, Ordering};
use std::test::Fail;
use std::thread;
use std::thread::Threads;

// Heap pages of object 1, each with one row, but for page 17, which says that it is page 18. A reader that fails does
// so at each page. It counts the pages that are read.
#[derive(Drop)]
struct NumberedPages {
    number: u32,
    fails: bool,
    reads: u64,
    faults: u64,
    failed: Option<PageNo>,
}

const PAGES: u32 = 40;

impl SnapReader for NumberedPages {
    ghost use Rattle.std.proofs.lemmas.Option.{none-some};

    ghost pages = { λ _. 40 };

    ghost image = { λ _. None };

    ghost ended = { λ _. false };

    ghost faults = { λ r. r.faults };

    ghost failed = { λ r. option_map (λ p. p.0) r.failed };

    ghost bound = { λ _. [] };

    ghost whole = { λ _ x at. absurd (none-some x at) };

    fn page(&mut self, p: PageNo, into: &mut Page) -> Result<(), ReadStop> {
        if self.fails {
            self.faults = self.faults.saturating_add(1);
            self.failed = Some(p);
            return Err(ReadStop::Fault(p));
        }
        self.reads = self.reads.saturating_add(1);
        let says = if p.0 == 17 { 18 } else { p.0 };
        heap_page(into, says);
        Ok(())
    }
}

// Heaps 1 and 2 have pages 11 and 12 in their chains, and heap 1 has page 10 in a slot and marks extents 2, 3 and 4, of
// which pages 16, 17, 24 and 32 are allocated.
const FIVE_EXTENTS: MadeMap = MadeMap {
    objects: &[
        MadeRow {
            first_iam: 11,
            ..HEAP
        },
        MadeRow {
            id: 2,
            name: "u",
            first_iam: 12,
            ..HEAP
        },
    ],
    chains: &[],
    uses: &[
        PageUse {
            page: 10,
            object: 1,
            place: 0,
        },
        PageUse {
            page: 11,
            object: 1,
            place: 8,
        },
        PageUse {
            page: 12,
            object: 2,
            place: 8,
        },
    ],
    extents: &[TAKEN, MIXED, MARKED, MARKED, MARKED],
    pfs: &[
        0x44, 0x44, 0x44, 0x44, 0, 0, 0, 0, 0, 0x64, 0x60, 0x70, 0x70, 0, 0, 0, 0x41, 0x41, 0, 0,
        0, 0, 0, 0, 0x41, 0, 0, 0, 0, 0, 0, 0, 0x41, 0, 0, 0, 0, 0, 0, 0,
    ],
};

// Page 17 says that it is page 18. Page 10 has a row, of which its PFS byte tells nothing.
static ERRORS: [CheckError; 2] = [
    CheckError {
        number: 8909,
        page: 17,
        value: 18,
        ..WRONG
    },
    CheckError {
        number: 8914,
        page: 10,
        value: 0x60,
        ..WRONG
    },
];

fn five_extents(alloc: Global) -> Result<AllocMap, NoMemory>
    ensures { IfOk result (λ map. map.pages ≡ 40) }
{
    map_of(alloc, PAGES, &FIVE_EXTENTS, &[])
}

// So many readers, of which the one of a number fails.
fn readers(alloc: Global, count: u32, failing: u32) -> Result<Vec<NumberedPages>, NoMemory>
    ensures { IfOk result (λ all. vec_len all ≡ count) }
{
    let mut all = Vec::new(alloc);
    for number in 0..count {
        all.push(NumberedPages {
            number,
            fails: number == failing,
            reads: 0,
            faults: 0,
            failed: None,
        })?;
    }
    Ok(all)
}

// The answer of so many workers, and their readers.
type Answer = (Result<CheckReport, ReadStop>, Vec<NumberedPages>);

fn scanned<T: Threads + Sync, G: Gate + Sync>(
    rt: &T,
    alloc: Global,
    count: u32,
    failing: u32,
    gate: &G,
) -> Result<Answer, NoMemory>
    requires some { 0 < count }
    requires few { count ≤ 16 }
{
    let map = five_extents(alloc)?;
    let mut all = readers(alloc, count, failing)?;
    let answer = scan(rt, alloc, &mut all, &map, gate);
    Ok((answer, all))
}

fn expect_report(rt: &impl Abort, answer: &Answer, name: &str) {
    match &answer.0 {
        Ok(report) => {
            expect_errors(rt, report.errors.as_slice(), &ERRORS, name);
            expect_tables(rt, report, &[line(1, 4), line(2, 0)], name);
        }
        Err(_) => assert!(rt; false, "{name}"),
    }
}

// The pages that the readers have read are 10, 16, 17, 24 and 32, each once, and they stand in their order.
fn expect_readers(rt: &impl Abort, answer: &Answer, name: &str) {
    let mut reads = 0u64;
    let mut next = 0u32;
    for reader in &answer.1 {
        reads = reads.saturating_add(reader.reads);
        assert_eq!(rt; reader.number, next, "{name}");
        next = next.saturating_add(1);
    }
    assert_eq!(rt; reads, 5, "{name}");
}

static COUNTS: [(&str, u32); 4] = [("one", 1), ("two", 2), ("four", 4), ("sixteen", 16)];

#[test]
fn workers_answer_what_one_reader_does(rt: HostRuntime) -> Result<(), Fail> {
    for (name, count) in COUNTS.iter() {
        if (1..=16).contains(count) {
            let answer = scanned(&rt, rt.alloc(), *count, 16, &NoGate)?;
            expect_report(&rt, &answer, name);
            expect_readers(&rt, &answer, name);
        }
    }
    Ok(())
}

// How often a gate looks before it gives up.
const LOOKS: u64 = 10_000_000;

// Waits until a number is reached. Whether it was.
fn wait_for(number: &AtomicU64, wanted: u64) -> bool {
    for _ in 0..LOOKS {
        if number.load(Ordering::SeqCst) >= wanted {
            return true;
        }
        thread::yield_now();
    }
    false
}

// Holds the worker that first reaches an extent until the four others have been reached.
#[derive(Drop)]
struct HoldsFirst {
    reached: AtomicU64,
    gave_up: AtomicU64,
}

impl Gate for HoldsFirst {
    fn pass(&self, _point: Point) {
        let before = self.reached.fetch_add(1, Ordering::SeqCst);
        if before == 0 && !wait_for(&self.reached, 5) {
            self.gave_up.store(1, Ordering::SeqCst);
        }
    }
}

// Workers one after another don't pass, nor do workers that have shares of the extents.
#[test]
fn a_worker_that_is_held_leaves_all_other_extents_to_others(rt: HostRuntime) -> Result<(), Fail> {
    let gate = HoldsFirst {
        reached: AtomicU64::new(0),
        gave_up: AtomicU64::new(0),
    };
    let answer = scanned(&rt, rt.alloc(), 2, 16, &gate)?;
    assert_eq!(rt; gate.gave_up.load(Ordering::SeqCst), 0);
    expect_report(&rt, &answer, "held");
    expect_readers(&rt, &answer, "held");
    Ok(())
}

// Holds each worker but the third until that one has reached an extent with pages. Each of the others holds one of the
// five extents meanwhile, and only extent 0 has none.
#[derive(Drop)]
struct HoldsOthers {
    reached: AtomicU64,
    gave_up: AtomicU64,
}

impl Gate for HoldsOthers {
    fn pass(&self, point: Point) {
        let Point::Extent { worker, extent } = point else {
            return;
        };
        if worker == 2 {
            if extent > 0 {
                self.reached.store(1, Ordering::SeqCst);
            }
        } else if !wait_for(&self.reached, 1) {
            self.gave_up.store(1, Ordering::SeqCst);
        }
    }
}

// The third of four readers fails at the page that the answer names, and no other does.
fn expect_fault(rt: &impl Abort, answer: &Answer) {
    let mut next = 0u32;
    for reader in &answer.1 {
        assert_eq!(rt; reader.number, next);
        assert_eq!(rt; reader.faults, u64::from(reader.number == 2));
        if reader.number == 2 {
            let named = match &answer.0 {
                Err(ReadStop::Fault(page)) => Some(*page),
                _ => None,
            };
            let is_named = named.is_some() && named == reader.failed;
            assert!(rt; is_named);
        }
        next = next.saturating_add(1);
    }
    assert_eq!(rt; next, 4);
}

#[test]
fn a_reader_that_fails_among_four_is_answered(rt: HostRuntime) -> Result<(), Fail> {
    let gate = HoldsOthers {
        reached: AtomicU64::new(0),
        gave_up: AtomicU64::new(0),
    };
    let answer = scanned(&rt, rt.alloc(), 4, 2, &gate)?;
    assert_eq!(rt; gate.gave_up.load(Ordering::SeqCst), 0);
    expect_fault(&rt, &answer);
    Ok(())
}
