// Runs of `replay` over devices in memory.
ghost use Rattle.std.specs.Prelude.{◌≡◌, ◌+◌, length, IfOk};

use checkdb_top::{NoGate, Outcome, Status, plain_top};
use pg_base::{PageNo, Words};
use std::alloc::Global;
use std::test::Fail;
use vol_dev::{FailAt, MemLog, MemSink, MemSource, MemVolume};

/// The one call of a device that fails in a run.
#[derive(Clone, Copy)]
pub enum Fault {
    /// Each call succeeds.
    Never,
    /// The first read of a page.
    Read(u32),
    /// The first write of a page.
    Write(u32),
    /// Each read of the log.
    LogRead,
    /// Each append of more bytes than these, behind so many.
    LogAppend(u32),
    /// This call of the schedule, from 1.
    Schedule(u32),
    /// This call of each script, from 1.
    Script(u32),
    /// This call of the output, from 1.
    Output(u32),
}

/// What a run left behind.
#[derive(Drop)]
pub struct Ran {
    pub status: Status,
    pub output: Vec<u8>,
    pub log: Vec<u8>,
    pub file: Vec<u8>,
}

// The words of a run with so many scripts. The names don't matter: the devices are in memory.
fn words_of(alloc: Global, scripts: usize) -> Result<Words, Fail> {
    let mut words = Words::begin(alloc);
    words.push("replay")?;
    words.push("data")?;
    words.push("log")?;
    words.push("schedule")?;
    for _ in 0..scripts {
        words.push("script")?;
    }
    Ok(words)
}

fn source_of(alloc: Global, text: &str, fails: Option<u32>) -> Result<MemSource, Fail> {
    let mut bytes = Vec::new(alloc);
    bytes.extend_from_slice(text.as_bytes())?;
    Ok(MemSource::of(bytes, fails))
}

// A schedule and scripts as sources.
fn sources_of(
    alloc: Global,
    schedule: &str,
    scripts: &[&str],
    fault: Fault,
) -> Result<Vec<MemSource>, Fail>
    ensures { IfOk result (λ sources. length sources.items ≡ length scripts.now + 1) }
{
    let (first, others) = match fault {
        Fault::Schedule(call) => (Some(call), None),
        Fault::Script(call) => (None, Some(call)),
        _ => (None, None),
    };
    let mut sources = Vec::new(alloc);
    sources.push(source_of(alloc, schedule, first)?)?;
    'scripts: for script in scripts {
        sources.push(source_of(alloc, script, others)?)?;
    }
    Ok(sources)
}

fn log_of(bytes: Vec<u8>, fault: Fault) -> MemLog {
    match fault {
        Fault::LogRead => MemLog::of(bytes, true, None),
        Fault::LogAppend(most) => MemLog::of(bytes, false, Some(most)),
        _ => MemLog::of(bytes, false, None),
    }
}

fn output_of(alloc: Global, fault: Fault) -> MemSink {
    match fault {
        Fault::Output(call) => MemSink::of(alloc, Some(call)),
        _ => MemSink::of(alloc, None),
    }
}

fn failing_use(page: u32, write: bool) -> FailAt {
    FailAt {
        page: PageNo(page),
        write,
        nth: 1,
    }
}

fn volume_of(alloc: Global, file: Vec<u8>, fault: Fault) -> Result<MemVolume, Fail> {
    let mut failing = Vec::new(alloc);
    match fault {
        Fault::Read(page) => failing.push(failing_use(page, false))?,
        Fault::Write(page) => failing.push(failing_use(page, true))?,
        _ => {}
    }
    Ok(MemVolume::of(file, failing))
}

/// Runs at most sixteen scripts by a schedule over a file and a log in memory, of which a call fails.
pub fn replay_failing(
    alloc: Global,
    file: Vec<u8>,
    log: Vec<u8>,
    schedule: &str,
    scripts: &[&str],
    fault: Fault,
) -> Result<Ran, Fail> {
    if scripts.len() > 16 {
        return Err(Fail::from("more than 16 scripts"));
    }
    let words = words_of(alloc, scripts.len())?;
    let mut sources = sources_of(alloc, schedule, scripts, fault)?;
    let mut out = output_of(alloc, fault);
    let volume = volume_of(alloc, file, fault)?;
    let log = log_of(log, fault);
    let Outcome {
        status,
        volume,
        log,
    } = plain_top(alloc, &words, volume, log, &mut sources, &mut out, &NoGate);
    Ok(Ran {
        status,
        output: out.into_bytes(),
        log: log.into_bytes(),
        file: volume.into_bytes(),
    })
}

/// Runs scripts by a schedule over a file and an empty log, on devices that don't fail.
pub fn replay(alloc: Global, file: Vec<u8>, schedule: &str, scripts: &[&str]) -> Result<Ran, Fail> {
    let log = Vec::new(alloc);
    replay_failing(alloc, file, log, schedule, scripts, Fault::Never)
}
