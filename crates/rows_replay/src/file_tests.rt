// Over which files sessions run: files of both geometries, with tables wherever their chains lead, and damaged ones.
use crate::heaps::{EMPTY_HEAP, IN_THE_SECOND_INTERVAL};
use checkdb_top::Status;
use rows_files::objects::Iam;
use rows_files::pieces::Piece::{Bytes, Chain, Clustered, Heap, HeapPage, Owned, Pfs, Slots};
use rows_files::pieces::{New, ONLY, Piece, made};
use rows_files::replays::replay;
use rows_files::still::differs;
use std::alloc::Global;
use std::test::Fail;

// A run of one script: its file, its replies and the bytes of its log.
struct Run {
    name: &'static str,
    new: New,
    parts: &'static [&'static [Piece]],
    script: &'static str,
    status: Status,
    replies: &'static str,
    log: usize,
}

// Heap `u`, object 2, whose one page is page 12.
const OTHER_HEAP: &[Piece] = &[
    Heap(2, b'u', 11),
    Chain(11, Iam { object: 2, ..ONLY }),
    Pfs(11, 0x70),
    HeapPage(12, 2),
    Owned(11, &[12], 0x60),
];

// Heap `t` whose one page is page 8,080, in extent 1,010. Of the 8,088 bytes of PFS page 1 it has the 8,081st. The extent isn't
// free.
const FAR_PAGE: &[Piece] = &[
    Heap(1, b't', 8),
    Chain(8, ONLY),
    Pfs(8, 0x70),
    HeapPage(8080, 1),
    Slots(8, &[8080]),
    Bytes(1, 8176, &[0x60]),
    Bytes(2, 222, &[0b11]),
];

const ONE_ROW: &str = "INSERT t 1 'a'\nCOUNT t\nDBCC CHECKDB\n";

const ONE_ROW_SEEN: &str =
    "1.1 ROWS 1\n1.2 ROWS 1\n1.3 DBCC LSN 8\nMsg 2593: object 1, rows 1, pages 1\nMsg 8989: 0 allocation errors, 0 consistency errors\n";

// The bytes of items: the Start of an INSERT takes three resources, as of a first row four Changes follow it with 118 bytes,
// and a Commit has 9. A COUNT is a Start without resources, and so is a refusal. A check has a Snap and a CheckEnd.
const FIRST_ROW: usize = 48 + 118 + 9;

const COUNTED: usize = 33;

const CHECKED: usize = 15;

// A later row of the same page leaves the PFS byte: two resources, and three Changes with 96 bytes.
const NEXT_ROW: usize = 43 + 96 + 9;

const EACH_IS_REFUSED: &str = "COUNT t\nINSERT t 1 'a'\nSELECT t 1\nDBCC CHECKDB\n";

static RUNS: [Run; 7] = [
    Run {
        name: "the standard geometry",
        new: New::Small(16),
        parts: &[EMPTY_HEAP, &[Bytes(0, 106, &[1])]],
        script: ONE_ROW,
        status: Status::Clean,
        replies: ONE_ROW_SEEN,
        log: FIRST_ROW + COUNTED + CHECKED,
    },
    Run {
        name: "8,096 pages in the standard geometry",
        new: New::TwoSpans,
        parts: &[FAR_PAGE],
        script: ONE_ROW,
        status: Status::Clean,
        replies: ONE_ROW_SEEN,
        log: FIRST_ROW + COUNTED + CHECKED,
    },
    Run {
        name: "an extent of the second interval",
        new: New::TwoIntervals,
        parts: &[IN_THE_SECOND_INTERVAL],
        script: ONE_ROW,
        status: Status::Clean,
        replies: ONE_ROW_SEEN,
        log: FIRST_ROW + COUNTED + CHECKED,
    },
    Run {
        name: "two heaps",
        new: New::Small(16),
        parts: &[EMPTY_HEAP, OTHER_HEAP],
        script: "INSERT t 1 'a'\nINSERT u 2 'b'\nINSERT u 3 'c'\nCOUNT t\nCOUNT u\nDBCC CHECKDB\n",
        status: Status::Clean,
        replies: "1.1 ROWS 1\n1.2 ROWS 1\n1.3 ROWS 1\n1.4 ROWS 1\n1.5 ROWS 2\n1.6 DBCC LSN 20\nMsg 2593: object 1, rows 1, pages 1\nMsg 2593: object 2, rows 2, pages 1\nMsg 8989: 0 allocation errors, 0 consistency errors\n",
        log: 2 * FIRST_ROW + NEXT_ROW + 2 * COUNTED + CHECKED,
    },
    Run {
        name: "a GAM page without its type",
        new: New::Small(16),
        parts: &[EMPTY_HEAP, &[Bytes(2, 1, &[0])]],
        script: "INSERT t 1 'a'\nDBCC CHECKDB\n",
        status: Status::Errors,
        replies: "1.1 ROWS 1\n1.2 DBCC LSN 7\nMsg 8946: object 0, page 2, other 0, slot 0, value 0\nMsg 8998: object 0, page 0, other 0, slot 0, value 0\nMsg 8989: 2 allocation errors, 0 consistency errors\n",
        log: FIRST_ROW + CHECKED,
    },
    Run {
        name: "page 9 without its type",
        new: New::Small(16),
        parts: &[EMPTY_HEAP, &[Bytes(9, 1, &[12])]],
        script: EACH_IS_REFUSED,
        status: Status::Errors,
        replies: "1.1 MSG 824 PAGE 9\n1.2 MSG 824 PAGE 9\n1.3 MSG 824 PAGE 9\n1.4 DBCC LSN 4\nMsg 8946: object 0, page 9, other 0, slot 0, value 12\nMsg 8998: object 0, page 0, other 0, slot 0, value 0\nMsg 8989: 2 allocation errors, 0 consistency errors\n",
        log: 3 * COUNTED + CHECKED,
    },
    // Whatever kind the tables of such a catalog have.
    Run {
        name: "a catalog that fails its test",
        new: New::Small(16),
        parts: &[&[Clustered(1, b't', 8, 10), Bytes(9, 5215, &[1])]],
        script: EACH_IS_REFUSED,
        status: Status::Errors,
        replies: "1.1 MSG 824 PAGE 9\n1.2 MSG 824 PAGE 9\n1.3 MSG 824 PAGE 9\n1.4 DBCC LSN 4\nMsg 8946: object 0, page 9, other 0, slot 0, value 13\nMsg 8998: object 0, page 0, other 0, slot 0, value 0\nMsg 8989: 2 allocation errors, 0 consistency errors\n",
        log: 3 * COUNTED + CHECKED,
    },
];

fn expect_run(alloc: Global, run: &Run) -> Result<(), Fail> {
    let file = made(alloc, run.new, run.parts)?;
    let ran = replay(alloc, file, "", &[run.script])?;
    let is_right = ran.status == run.status
        && ran.output.as_slice() == run.replies.as_bytes()
        && ran.log.len() == run.log;
    if is_right {
        return Ok(());
    }
    Err(differs(run.name, ran.status, ran.output.as_slice()))
}

#[test]
fn sessions_run_over_every_file_without_a_clustered_table(rt: HostRuntime) -> Result<(), Fail> {
    for run in &RUNS {
        expect_run(rt.alloc(), run)?;
    }
    Ok(())
}
