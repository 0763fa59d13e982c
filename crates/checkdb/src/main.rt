//! `checkdb check DATA` writes the report of a data file to standard output, `checkdb page DATA P` the header and
//! the slots of one page. `checkdb replay DATA LOG SCHEDULE SCRIPT..` runs scripts as sessions over a data file and
//! its log, in turns on one thread.
#![tactic(auto)]

ghost use Rattle.std.specs.Prelude.{◌≡◌, length, IfOk};

use app_words::{Names, names_of};
use checkdb_top::{Device, FileWhy, NoGate, Outcome, ScriptWhy, Status, plain_top};
use pg_base::{NoMemory, Words};
use std::alloc::Global;
use std::env;
use std::io::ErrorKind;
use std::process::ExitCode;
use std::rt::{Env, Files};
use vol_dev::{FileLog, FileSource, FileVolume, StdoutSink};

// The words of the command line, without the program's name. Words that are no text are none.
fn words_of<R: Env + AllocGlobal>(rt: &R) -> Result<Words, NoMemory> {
    let mut words = Words::begin(rt.alloc());
    match env::args(rt) {
        Ok(args) => {
            for arg in args.skip(1) {
                words.push(arg.as_str())?;
            }
        }
        Err(error) => {
            if error.kind() == ErrorKind::OutOfMemory {
                return Err(NoMemory);
            }
        }
    }
    Ok(words)
}

// The sources of these names, in their order; none for a command that names none.
fn sources_of<R: Files>(
    rt: &R,
    alloc: Global,
    names: &[String],
) -> Result<Vec<FileSource<R::File>>, NoMemory>
    ensures { IfOk result (λ sources. length sources.items ≡ length names.now) }
{
    let mut sources = Vec::new(alloc);
    for name in names {
        sources.push(FileSource::at(rt, name.as_str()))?;
    }
    Ok(sources)
}

fn device_name(which: Device) -> &'static str {
    match which {
        Device::Volume => "volume",
        Device::Log => "log",
        Device::Source => "source",
        Device::Sink => "sink",
    }
}

fn why_name(why: FileWhy) -> &'static str {
    match why {
        FileWhy::Size => "size",
        FileWhy::Header => "header",
        FileWhy::Version => "version",
        FileWhy::Geometry => "geometry",
        FileWhy::Count => "count",
        FileWhy::Later => "later",
    }
}

fn script_why_name(why: ScriptWhy) -> &'static str {
    match why {
        ScriptWhy::Statement => "statement",
        ScriptWhy::Many => "many",
        ScriptWhy::Size => "size",
    }
}

// What standard error says of a status. Where it can't be written, the exit status alone tells.
fn tell<R: Eprint>(rt: &R, status: Status) {
    let _ = match status {
        Status::Clean | Status::Errors | Status::NoReport => Ok(()),
        Status::Words { at } => eprintln!(rt; "checkdb: word {at}"),
        Status::Script { script, line, why } => {
            eprintln!(rt;
                "checkdb: script {script} line {line}: {}",
                script_why_name(why)
            )
        }
        Status::LogSize => eprintln!(rt; "checkdb: log: size"),
        Status::LogLater => eprintln!(rt; "checkdb: log: later"),
        Status::File(why) => eprintln!(rt; "checkdb: file: {}", why_name(why)),
        Status::Device { which } => eprintln!(rt; "checkdb: device {}", device_name(which)),
        Status::Memory => eprintln!(rt; "checkdb: out of memory"),
    };
}

fn run(rt: &HostRuntime, alloc: Global, words: &Words) -> Result<Status, NoMemory> {
    let Names {
        volume,
        log,
        sources,
    } = names_of(alloc, words)?;
    let mut sources = sources_of(rt, alloc, &sources)?;
    let volume = FileVolume::at(rt, volume.as_str());
    let log = FileLog::at(rt, log.as_str());
    let mut out = StdoutSink::new(rt.stdout());
    let Outcome {
        status,
        volume: _volume,
        log: _log,
    } = plain_top(alloc, words, volume, log, &mut sources, &mut out, &NoGate);
    Ok(status)
}

fn done(rt: &HostRuntime) -> Result<Status, NoMemory> {
    let words = words_of(rt)?;
    run(rt, rt.alloc(), &words)
}

fn main(rt: HostRuntime) -> ExitCode {
    let status = match done(&rt) {
        Ok(status) => status,
        Err(NoMemory) => Status::Memory,
    };
    tell(&rt, status);
    ExitCode::from(status.code())
}
