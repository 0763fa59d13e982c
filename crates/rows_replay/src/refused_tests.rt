// What is refused before a run begins: nothing is written, and log and file stay as they were.
use checkdb_top::{FileWhy, ScriptWhy, Status};
use rows_files::replays::{Fault, Ran, replay_failing};
use rows_files::trees::{empty_heap, put_in};
use std::alloc::Global;
use std::test::Fail;

// Changes of a file with a heap, by page, where in it, and the bytes; the log, the schedule and the scripts; and
// the status.
#[derive(Drop)]
struct Refused<'a> {
    bytes: &'a [(u16, u16, &'a [u8])],
    log: &'a str,
    schedule: &'a str,
    scripts: &'a [&'a str],
    status: Status,
}

fn changed_file(alloc: Global, changes: &[(u16, u16, &[u8])]) -> Result<Vec<u8>, Fail> {
    let mut file = empty_heap(alloc, 0x60)?;
    for (p, at, bytes) in changes.iter() {
        put_in(&mut file, *p, *at, bytes);
    }
    Ok(file)
}

fn run(alloc: Global, file: Vec<u8>, refused: &Refused<'_>) -> Result<Ran, Fail> {
    let log = Vec::from_slice(alloc, refused.log.as_bytes())?;
    replay_failing(
        alloc,
        file,
        log,
        refused.schedule,
        refused.scripts,
        Fault::Never,
    )
}

const COUNT: &[&str] = &["COUNT t\n"];

// Byte 106 of page 0 is the geometry, bytes 104 and 105 the version, 108 to 111 the number of pages. The catalog's
// 128 entries stand from 96 of page 9 on, 40 bytes each: the id, at 4 the kind, at 5 the length of the name, at 6 the
// name, at 24 the first IAM page, at 28 the root.
static REFUSALS: [Refused<'static>; 15] = [
    // A clustered table whose root is page 10.
    Refused {
        bytes: &[(9, 100, &[2]), (9, 124, &[10])],
        log: "",
        schedule: "",
        scripts: COUNT,
        status: Status::File(FileWhy::Later),
    },
    // The same in the standard geometry, and behind a heap in the last entry of the catalog.
    Refused {
        bytes: &[(0, 106, &[1]), (9, 100, &[2]), (9, 124, &[10])],
        log: "",
        schedule: "",
        scripts: COUNT,
        status: Status::File(FileWhy::Later),
    },
    Refused {
        bytes: &[(9, 5176, &[2, 0, 0, 0, 2, 1, b'u'])],
        log: "",
        schedule: "",
        scripts: COUNT,
        status: Status::File(FileWhy::Later),
    },
    Refused {
        bytes: &[(0, 1, &[14])],
        log: "",
        schedule: "",
        scripts: COUNT,
        status: Status::File(FileWhy::Header),
    },
    Refused {
        bytes: &[(0, 104, &[9])],
        log: "",
        schedule: "",
        scripts: COUNT,
        status: Status::File(FileWhy::Version),
    },
    Refused {
        bytes: &[(0, 108, &[24])],
        log: "",
        schedule: "",
        scripts: COUNT,
        status: Status::File(FileWhy::Count),
    },
    // There is one session, and a count is 1 to 10,000,000.
    Refused {
        bytes: &[],
        log: "",
        schedule: "2 1\n",
        scripts: COUNT,
        status: Status::Script {
            script: 0,
            line: 1,
            why: ScriptWhy::Statement,
        },
    },
    Refused {
        bytes: &[],
        log: "",
        schedule: "1 1\n\n-- none\n1 0\n",
        scripts: COUNT,
        status: Status::Script {
            script: 0,
            line: 4,
            why: ScriptWhy::Statement,
        },
    },
    Refused {
        bytes: &[],
        log: "",
        schedule: "1 10000000\n1 10000001\n",
        scripts: COUNT,
        status: Status::Script {
            script: 0,
            line: 2,
            why: ScriptWhy::Statement,
        },
    },
    Refused {
        bytes: &[],
        log: "",
        schedule: "",
        scripts: &["BEGIN\nCOMMIT\nSELEC t 1\n"],
        status: Status::Script {
            script: 1,
            line: 3,
            why: ScriptWhy::Statement,
        },
    },
    Refused {
        bytes: &[],
        log: "",
        schedule: "2 1\n",
        scripts: &["", "BEGIN\nINSERT t 01 'a'"],
        status: Status::Script {
            script: 2,
            line: 2,
            why: ScriptWhy::Statement,
        },
    },
    // A log of one byte, which no item begins with.
    Refused {
        bytes: &[],
        log: "\t",
        schedule: "",
        scripts: COUNT,
        status: Status::LogLater,
    },
    // The schedule is tested before the scripts, these before the file, and that before the log.
    Refused {
        bytes: &[(0, 104, &[9])],
        log: "\t",
        schedule: "1 01\n",
        scripts: &["COUNT\n"],
        status: Status::Script {
            script: 0,
            line: 1,
            why: ScriptWhy::Statement,
        },
    },
    Refused {
        bytes: &[(0, 104, &[9])],
        log: "\t",
        schedule: "1 1\n",
        scripts: &["COUNT\n"],
        status: Status::Script {
            script: 1,
            line: 1,
            why: ScriptWhy::Statement,
        },
    },
    Refused {
        bytes: &[(0, 104, &[9])],
        log: "\t",
        schedule: "1 1\n",
        scripts: COUNT,
        status: Status::File(FileWhy::Version),
    },
];

#[test]
fn a_refused_run_changes_nothing(rt: HostRuntime) -> Result<(), Fail> {
    let alloc = rt.alloc();
    for refused in REFUSALS.iter() {
        let file = changed_file(alloc, refused.bytes)?;
        let ran = run(alloc, file, refused)?;
        let file = changed_file(alloc, refused.bytes)?;
        let is_right = ran.status == refused.status
            && ran.output.is_empty()
            && ran.log.as_slice() == refused.log.as_bytes()
            && ran.file.as_slice() == file.as_slice();
        assert!(rt; is_right);
    }
    Ok(())
}
