// Sessions in turns over a new file of 16 pages with heap `t` (object 1), whose one page, 10, is empty.
use checkdb_top::Status;
use rows_files::files::{PAGE, put};
use rows_files::replays::replay;
use rows_files::trees::empty_heap;
use std::test::Fail;

// A run that ends without errors: its schedule, its scripts, its replies and the bytes of its log.
#[derive(Drop)]
struct Run<'a> {
    schedule: &'a str,
    scripts: &'a [&'a str],
    replies: &'a str,
    log: usize,
}

// The bytes of items: a Start has 33 and 5 for each resource, a Change 20 and twice those of its cell, an Undo 17,
// a Commit, an Abort, 9, a Snap 7, a CheckEnd 8. The first row of the page has four Changes, of a PFS byte, 12 bytes
// of rows, one of slots and 5 of the header, which are 22 + 44 + 22 + 30 bytes. The second leaves the PFS byte, and
// changes 3 bytes of two slots and 5 of the header.
static RUNS: [Run<'static>; 7] = [
    // Nothing is asked.
    Run {
        schedule: "",
        scripts: &[""],
        replies: "",
        log: 0,
    },
    // A check sees what is committed.
    Run {
        schedule: "",
        scripts: &["INSERT t 1 'a'\nDBCC CHECKDB\nBEGIN\nINSERT t 2 'b'\nDBCC CHECKDB\nCOMMIT\n"],
        replies: "1.1 ROWS 1\n1.2 DBCC LSN 7\nMsg 2593: object 1, rows 1, pages 1\nMsg 8989: 0 allocation errors, 0 consistency errors\n1.3 OK\n1.4 ROWS 1\n1.5 DBCC LSN 14\nMsg 2593: object 1, rows 1, pages 1\nMsg 8989: 0 allocation errors, 0 consistency errors\n1.6 OK\n",
        log: (48 + 118 + 9) + 15 + 33 + (43 + 96) + 15 + (33 + 9),
    },
    // It takes back what a rollback has left: of four Changes three, after one Undo.
    Run {
        schedule: "1 8\n2 1\n",
        scripts: &["BEGIN\nINSERT t 1 'a'\nROLLBACK\n", "DBCC CHECKDB\n"],
        replies: "1.1 OK\n1.2 ROWS 1\n1.3 OK\n2.1 DBCC LSN 9\nMsg 2593: object 1, rows 0, pages 1\nMsg 8989: 0 allocation errors, 0 consistency errors\n",
        log: 33 + (48 + 118) + (33 + 4 * 17 + 9) + 15,
    },
    // It stands between two Changes.
    Run {
        schedule: "1 3\n2 1\n",
        scripts: &["INSERT t 1 'a'\n", "DBCC CHECKDB\n"],
        replies: "1.1 ROWS 1\n2.1 DBCC LSN 4\nMsg 2593: object 1, rows 0, pages 1\nMsg 8989: 0 allocation errors, 0 consistency errors\n",
        log: (48 + 118 + 9) + 15,
    },
    // Two checks go on at once.
    Run {
        schedule: "1 2\n2 1\n1 1\n3 1\n1 9\n2 1\n3 1\n",
        scripts: &["INSERT t 1 'a'\n", "DBCC CHECKDB\n", "DBCC CHECKDB\n"],
        replies: "1.1 ROWS 1\n2.1 DBCC LSN 3\nMsg 2593: object 1, rows 0, pages 1\nMsg 8989: 0 allocation errors, 0 consistency errors\n3.1 DBCC LSN 5\nMsg 2593: object 1, rows 0, pages 1\nMsg 8989: 0 allocation errors, 0 consistency errors\n",
        log: (48 + 118 + 9) + 2 * 15,
    },
    // A table that is held is refused: a Start of transaction 0 without resources.
    Run {
        schedule: "1 6\n2 1\n",
        scripts: &["BEGIN\nINSERT t 1 'a'\n", "INSERT t 2 'b'\n"],
        replies: "1.1 OK\n1.2 ROWS 1\n2.1 MSG 1222 TABLE 1 TRAN 1\n",
        log: 33 + (48 + 118) + 33,
    },
    Run {
        schedule: "",
        scripts: &["COMMIT\nROLLBACK\nCOUNT u\nCOUNT t\nBEGIN\nBEGIN\n"],
        replies: "1.1 MSG 3902\n1.2 MSG 3903\n1.3 MSG 208 u\n1.4 ROWS 0\n1.5 OK\n1.6 MSG 60001\n",
        log: 6 * 33,
    },
];

#[test]
fn sessions_take_turns(rt: HostRuntime) -> Result<(), Fail> {
    let alloc = rt.alloc();
    for run in RUNS.iter() {
        let ran = replay(alloc, empty_heap(alloc, 0x60)?, run.schedule, run.scripts)?;
        let is_right = ran.status == Status::Clean
            && ran.output.as_slice() == run.replies.as_bytes()
            && ran.log.len() == run.log;
        assert!(rt; is_right);
    }
    Ok(())
}

// A damage of the heap's file, and the report that a run makes of it.
#[derive(Drop)]
struct Damage<'a> {
    at: usize,
    byte: u8,
    report: &'a str,
}

static DAMAGES: [Damage<'static>; 2] = [
    // The PFS byte of the empty page says up to half full.
    Damage {
        at: PAGE + 96 + 10,
        byte: 0x61,
        report: "1.1 DBCC LSN 1\nMsg 8914: object 1, page 10, other 0, slot 0, value 97\nMsg 2593: object 1, rows 0, pages 1\nMsg 8989: 1 allocation errors, 0 consistency errors\n",
    },
    // Its free count leaves out one byte.
    Damage {
        at: 10 * PAGE + 22,
        byte: 0x9f,
        report: "1.1 DBCC LSN 1\nMsg 8939: object 1, page 10, other 0, slot 0, value 7\nMsg 2593: object 1, rows 0, pages 0\nMsg 8989: 0 allocation errors, 1 consistency errors\n",
    },
];

#[test]
fn a_run_reports_what_a_check_does(rt: HostRuntime) -> Result<(), Fail> {
    let alloc = rt.alloc();
    for damage in DAMAGES.iter() {
        let mut file = empty_heap(alloc, 0x60)?;
        put(&mut file, damage.at, &[damage.byte]);
        let ran = replay(alloc, file, "", &["DBCC CHECKDB\n"])?;
        let is_right = ran.output.as_slice() == damage.report.as_bytes();
        assert!(rt; ran.status == Status::Errors && is_right);
    }
    Ok(())
}

// What ends no statement that writes leaves the file as it was: none, refusals, and a rollback.
#[test]
fn the_file_stays_where_nothing_is_written(rt: HostRuntime) -> Result<(), Fail> {
    let alloc = rt.alloc();
    let scripts = [
        "",
        "COUNT t\nCOMMIT\nROLLBACK\nINSERT u 1 'a'\nBEGIN\nBEGIN\nDBCC CHECKDB\n",
        "BEGIN\nINSERT t 1 'a'\nINSERT t 2 'b'\nROLLBACK\n",
    ];
    for script in scripts.iter() {
        let ran = replay(alloc, empty_heap(alloc, 0x60)?, "", &[*script])?;
        let before = empty_heap(alloc, 0x60)?;
        let is_same = ran.file.as_slice() == before.as_slice();
        assert!(rt; ran.status == Status::Clean && is_same);
    }
    Ok(())
}
