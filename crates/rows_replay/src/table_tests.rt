// Tables come and go in runs of sessions: what is replied, what is refused, and which file is left.
use crate::heaps::{EMPTY_HEAP, IN_THE_SECOND_INTERVAL};
use checkdb_top::Status;
use rows_files::pieces::Piece::{Bytes, Chain, Heap, Marks, Pfs};
use rows_files::pieces::{New, ONLY, Piece, made};
use rows_files::replays::replay;
use rows_files::still::differs;
use std::alloc::Global;
use std::test::Fail;

// A run that ends without errors: its file, its schedule, its scripts and its replies, and whether the file that it
// leaves is as it was, byte by byte.
struct Run {
    name: &'static str,
    new: New,
    parts: &'static [&'static [Piece]],
    schedule: &'static str,
    scripts: &'static [&'static str],
    replies: &'static str,
    stays: bool,
}

// Heap `t` without pages, whose chain marks extent 3, of which no page is allocated.
const MARKING: &[Piece] = &[
    Heap(1, b't', 8),
    Chain(8, ONLY),
    Pfs(8, 0x70),
    Marks(8, 0b1000),
    Bytes(2, 96, &[0b0100]),
];

static RUNS: [Run; 12] = [
    // CREATE has three Changes, DROP two: of the PFS byte of page 8 and of page 9, where page 8 keeps its bytes.
    Run {
        name: "a table comes and goes",
        new: New::Small(16),
        parts: &[],
        schedule: "",
        scripts: &["CREATE HEAP t\nCREATE HEAP t\nDROP t\nDROP t\nDBCC CHECKDB\n"],
        replies: "1.1 OK\n1.2 MSG 2714 t\n1.3 OK\n1.4 MSG 208 t\n1.5 DBCC LSN 12\nMsg 8989: 0 allocation errors, 0 consistency errors\n",
        stays: false,
    },
    // Three Changes: bit 3 of GAM, the byte of page 8, and page 9.
    Run {
        name: "a marked extent that isn't in use",
        new: New::Small(32),
        parts: &[MARKING],
        schedule: "",
        scripts: &["DROP t\nDBCC CHECKDB\n"],
        replies: "1.1 OK\n1.2 DBCC LSN 6\nMsg 8989: 0 allocation errors, 0 consistency errors\n",
        stays: false,
    },
    // Three Changes: the PFS bytes of pages 8 and 10 are one cell each, since that of page 9 stands between them.
    Run {
        name: "a heap with a page",
        new: New::Small(16),
        parts: &[EMPTY_HEAP],
        schedule: "",
        scripts: &["INSERT t 1 'a'\nDROP t\nCOUNT t\nDBCC CHECKDB\n"],
        replies: "1.1 ROWS 1\n1.2 OK\n1.3 MSG 208 t\n1.4 DBCC LSN 13\nMsg 8989: 0 allocation errors, 0 consistency errors\n",
        stays: false,
    },
    // Five Changes: bit 6 of the second GAM page, the bytes of pages 8, 10 and 560, and page 9.
    Run {
        name: "an extent of the second interval",
        new: New::TwoIntervals,
        parts: &[IN_THE_SECOND_INTERVAL],
        schedule: "",
        scripts: &["DROP t\nDBCC CHECKDB\n"],
        replies: "1.1 OK\n1.2 DBCC LSN 8\nMsg 8989: 0 allocation errors, 0 consistency errors\n",
        stays: false,
    },
    Run {
        name: "the standard geometry",
        new: New::Small(16),
        parts: &[&[Bytes(0, 106, &[1])]],
        schedule: "",
        scripts: &["CREATE HEAP t\nCREATE HEAP u\nCOUNT u\nDROP t\nDBCC CHECKDB\n"],
        replies: "1.1 OK\n1.2 OK\n1.3 ROWS 0\n1.4 OK\n1.5 DBCC LSN 16\nMsg 2593: object 2, rows 0, pages 0\nMsg 8989: 0 allocation errors, 0 consistency errors\n",
        stays: false,
    },
    Run {
        name: "a CREATE that is rolled back",
        new: New::Small(16),
        parts: &[],
        schedule: "",
        scripts: &["BEGIN\nCREATE HEAP t\nCOUNT t\nROLLBACK\nCOUNT t\n"],
        replies: "1.1 OK\n1.2 OK\n1.3 ROWS 0\n1.4 OK\n1.5 MSG 208 t\n",
        stays: true,
    },
    Run {
        name: "a DROP that is rolled back",
        new: New::TwoIntervals,
        parts: &[IN_THE_SECOND_INTERVAL],
        schedule: "",
        scripts: &["BEGIN\nDROP t\nCOUNT t\nROLLBACK\nCOUNT t\n"],
        replies: "1.1 OK\n1.2 OK\n1.3 MSG 208 t\n1.4 OK\n1.5 ROWS 0\n",
        stays: true,
    },
    // Page 8 is taken again in the same transaction, and both are taken back.
    Run {
        name: "a DROP and a CREATE that are rolled back",
        new: New::Small(16),
        parts: &[EMPTY_HEAP],
        schedule: "",
        scripts: &["BEGIN\nDROP t\nCREATE HEAP u\nROLLBACK\nCOUNT t\nCOUNT u\n"],
        replies: "1.1 OK\n1.2 OK\n1.3 OK\n1.4 OK\n1.5 ROWS 0\n1.6 MSG 208 u\n",
        stays: true,
    },
    // Page 9 is read under the catalog, which the first session holds.
    Run {
        name: "the catalog is held",
        new: New::Small(16),
        parts: &[EMPTY_HEAP],
        schedule: "1 5\n2 3\n",
        scripts: &[
            "BEGIN\nCREATE HEAP u\nROLLBACK\n",
            "CREATE HEAP v\nDROP t\nCOUNT t\n",
        ],
        replies: "1.1 OK\n1.2 OK\n1.3 OK\n2.1 MSG 1222 CATALOG TRAN 1\n2.2 MSG 1222 CATALOG TRAN 1\n2.3 MSG 1222 CATALOG TRAN 1\n",
        stays: true,
    },
    Run {
        name: "the table is held",
        new: New::Small(16),
        parts: &[EMPTY_HEAP],
        schedule: "1 6\n2 2\n",
        scripts: &["BEGIN\nINSERT t 1 'a'\nROLLBACK\n", "DROP t\nDROP t\n"],
        replies: "1.1 OK\n1.2 ROWS 1\n1.3 OK\n2.1 MSG 1222 TABLE 1 TRAN 1\n2.2 MSG 1222 TABLE 1 TRAN 1\n",
        stays: true,
    },
    // A check begins while a DROP is under way: it takes back what isn't committed.
    Run {
        name: "a check sees no half of a DROP",
        new: New::Small(32),
        parts: &[MARKING],
        schedule: "1 2\n2 1\n",
        scripts: &["DROP t\n", "DBCC CHECKDB\n"],
        replies: "1.1 OK\n2.1 DBCC LSN 3\nMsg 2593: object 1, rows 0, pages 0\nMsg 8989: 0 allocation errors, 0 consistency errors\n",
        stays: false,
    },
    // Extent 1 has the pages 8 to 15, of which page 9 is the catalog: seven tables fit, and the eighth finds none, since
    // the file has no third extent.
    Run {
        name: "no page is to be had",
        new: New::Small(16),
        parts: &[],
        schedule: "",
        scripts: &[
            "CREATE HEAP a\nCREATE HEAP b\nCREATE HEAP c\nCREATE HEAP d\nCREATE HEAP e\nCREATE HEAP f\nCREATE HEAP g\nCREATE HEAP h\n",
        ],
        replies: "1.1 OK\n1.2 OK\n1.3 OK\n1.4 OK\n1.5 OK\n1.6 OK\n1.7 OK\n1.8 MSG 1105\n",
        stays: false,
    },
];

fn expect_run(alloc: Global, run: &Run) -> Result<(), Fail> {
    let file = made(alloc, run.new, run.parts)?;
    let before = made(alloc, run.new, run.parts)?;
    let ran = replay(alloc, file, run.schedule, run.scripts)?;
    let is_right = ran.status == Status::Clean
        && ran.output.as_slice() == run.replies.as_bytes()
        && (ran.file.as_slice() == before.as_slice()) == run.stays;
    if is_right {
        return Ok(());
    }
    Err(differs(run.name, ran.status, ran.output.as_slice()))
}

#[test]
fn tables_come_and_go(rt: HostRuntime) -> Result<(), Fail> {
    for run in &RUNS {
        expect_run(rt.alloc(), run)?;
    }
    Ok(())
}
