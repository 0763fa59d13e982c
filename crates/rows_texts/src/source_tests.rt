// A schedule and scripts read from their sources.
use crate::expect::expect_same;
use run_file::{SourcesStop, Texts, read_sources};
use spec_script::{ScriptWhy, Statement};
use std::alloc::Global;
use std::process::Abort;
use vol_dev::MemSource;

// Sources of these texts, one of which fails at its first read.
fn source_of(rt: &impl Abort, alloc: Global, text: &str, fails: bool) -> MemSource {
    let bytes = Vec::from_slice(alloc, text.as_bytes()).expect(rt, "memory");
    MemSource::of(bytes, if fails { Some(1) } else { None })
}

fn sources_of(
    rt: &impl Abort,
    alloc: Global,
    texts: &[&str],
    failing: Option<usize>,
) -> Vec<MemSource> {
    let mut sources = Vec::new(alloc);
    for (i, text) in texts.iter().enumerate() {
        let source = source_of(rt, alloc, text, failing == Some(i));
        sources.push(source).expect(rt, "memory");
    }
    sources
}

fn read(
    rt: &impl Abort,
    alloc: Global,
    texts: &[&str],
    failing: Option<usize>,
) -> Result<Texts, SourcesStop> {
    let mut sources = sources_of(rt, alloc, texts, failing);
    if sources.is_empty() || sources.len() > 17 {
        return Err(SourcesStop::NoMemory);
    }
    read_sources(alloc, &mut sources)
}

static TEXTS: [&str; 4] = [
    "1 2\n-- turns\n2 1\n",
    "BEGIN\nCOMMIT\n",
    "",
    "DBCC CHECKDB",
];

static SCHEDULE: [(u32, u32); 2] = [(1, 2), (2, 1)];

// How many statements each script has.
static LENGTHS: [usize; 3] = [2, 0, 1];

fn expect_lengths(rt: &impl Abort, found: &Texts) {
    expect_same(rt, &found.scripts.len(), &LENGTHS.len());
    for (statements, length) in found.scripts.iter().zip(LENGTHS.iter()) {
        expect_same(rt, &statements.len(), length);
    }
}

fn ends_in_check(found: &Texts) -> bool {
    match found.scripts.get(2) {
        Some(statements) => matches!(statements.get(0), Some(Statement::Check { workers: 4 })),
        None => false,
    }
}

#[test]
fn a_schedule_and_its_scripts_are_read(rt: HostRuntime) {
    let found = read(&rt, rt.alloc(), &TEXTS, None).expect(&rt, "the texts are right");
    expect_lengths(&rt, &found);
    let is_right = found.schedule.as_slice() == SCHEDULE.as_slice() && ends_in_check(&found);
    assert!(rt; is_right);
}

// Three texts, which source fails at its first read, and why they aren't taken.
type Case = ([&'static str; 3], Option<usize>, SourcesStop);

const THIRD_OF_FIRST: SourcesStop = SourcesStop::Fault {
    script: 1,
    line: 3,
    why: ScriptWhy::Statement,
};

static WRONG: [Case; 3] = [
    (
        ["1 1\n", "BEGIN\n\nSELEC t 1\n", "ROLLBAC"],
        None,
        THIRD_OF_FIRST,
    ),
    (
        ["1 1\n3 1\n", "BEGIN\n", "ROLLBAC"],
        None,
        SourcesStop::Fault {
            script: 0,
            line: 2,
            why: ScriptWhy::Statement,
        },
    ),
    (
        ["", "BEGIN\n", "ROLLBAC"],
        None,
        SourcesStop::Fault {
            script: 2,
            line: 1,
            why: ScriptWhy::Statement,
        },
    ),
];

static FAILING: [Case; 4] = [
    (
        ["1 1\n", "BEGIN\n\nSELEC t 1\n", ""],
        Some(0),
        SourcesStop::Failed,
    ),
    (
        ["1 1\n", "BEGIN\n\nSELEC t 1\n", ""],
        Some(1),
        SourcesStop::Failed,
    ),
    (
        ["1 1\n", "BEGIN\n\nSELEC t 1\n", ""],
        Some(2),
        THIRD_OF_FIRST,
    ),
    (
        ["3 1\n", "BEGIN\n", ""],
        Some(1),
        SourcesStop::Fault {
            script: 0,
            line: 1,
            why: ScriptWhy::Statement,
        },
    ),
];

fn expect_stops(rt: &impl Abort, alloc: Global, cases: &[Case]) {
    for (texts, failing, stop) in cases {
        let found = read(rt, alloc, texts, *failing).err();
        expect_same(rt, &found, &Some(*stop));
    }
}

#[test]
fn the_first_source_that_is_wrong_or_fails_decides(rt: HostRuntime) {
    expect_stops(&rt, rt.alloc(), &WRONG);
    expect_stops(&rt, rt.alloc(), &FAILING);
}
