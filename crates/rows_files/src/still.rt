// Runs of `check` and `page` over devices in memory.
use checkdb_top::{NoGate, Outcome, Status, plain_top};
use pg_base::{PageNo, Words};
use std::alloc::{AllocError, Global};
use std::test::Fail;
use vol_dev::{FailAt, MemLog, MemSink, MemSource, MemVolume};

/// A read of this page, if any, that fails the first time.
pub fn reads_that_fail(alloc: Global, page: Option<u32>) -> Result<Vec<FailAt>, AllocError> {
    let mut failing = Vec::new(alloc);
    if let Some(page) = page {
        failing.push(FailAt {
            page: PageNo(page),
            write: false,
            nth: 1,
        })?;
    }
    Ok(failing)
}

fn words_of(alloc: Global, texts: &[&str]) -> Result<Words, Fail> {
    let mut words = Words::begin(alloc);
    for text in texts {
        words.push(text)?;
    }
    Ok(words)
}

/// Runs a command over a file in memory: its status, and what it wrote.
pub fn run(
    alloc: Global,
    texts: &[&str],
    file: Vec<u8>,
    failing: Vec<FailAt>,
    sink_fails: Option<u32>,
) -> Result<(Status, Vec<u8>), Fail> {
    let words = words_of(alloc, texts)?;
    let mut sources = Vec::new(alloc);
    sources.push(MemSource::of(Vec::new(alloc), None))?;
    let mut out = MemSink::of(alloc, sink_fails);
    let volume = MemVolume::of(file, failing);
    let log = MemLog::of(Vec::new(alloc), false, None);
    let Outcome {
        status,
        volume: _volume,
        log: _log,
    } = plain_top(alloc, &words, volume, log, &mut sources, &mut out, &NoGate);
    Ok((status, out.into_bytes()))
}

/// `check` over devices that don't fail.
pub fn check(alloc: Global, file: Vec<u8>) -> Result<(Status, Vec<u8>), Fail> {
    run(alloc, &["check", "d"], file, Vec::new(alloc), None)
}

/// The lines, one after another.
pub fn joined(alloc: Global, lines: &[&str]) -> Result<Vec<u8>, AllocError> {
    let mut text = Vec::new(alloc);
    for line in lines {
        text.extend_from_slice(line.as_bytes())?;
    }
    Ok(text)
}

/// Fails where a run ended otherwise than so, or wrote another text.
pub fn expect_end(ended: &(Status, Vec<u8>), status: Status, text: &[u8]) -> Result<(), Fail> {
    let (found, written) = ended;
    if *found == status && written.as_slice() == text {
        return Ok(());
    }
    Err(differs("a run", *found, written.as_slice()))
}

/// How a run of this name ended that was to end otherwise, and what it wrote.
pub fn differs(name: &str, found: Status, written: &[u8]) -> Fail {
    match str::from_utf8(written) {
        Ok(text) => Fail::new(format_args!("{name}: {found:?}: {text}")),
        Err(_) => Fail::new(format_args!("{name}: {found:?}, and no text")),
    }
}
