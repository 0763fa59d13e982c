// What a run begins with: its texts, the pages of its file, and an empty log.
ghost use Rattle.std.specs.Prelude.{◌≡◌, ◌-◌, ◌<◌, ◌≤◌, All, length, map, IfOk, IfErr, IsErrAnd, OnOk};
ghost use Rattle.std.specs.Io.KnownBytes.{IsAtEnd};
ghost use Rattle.pg_base.specs.Faults.{Counts};
ghost use Rattle.vol_dev.specs.Files.{ReadsFile};
ghost use Rattle.spec_start.specs.Sources.{HasFailedSource, NoneFell};
ghost use Rattle.checkdb_top.specs.Answers.{IsDevice};
ghost use Rattle.checkdb_top.specs.Start.{Begins, StopsStart};
ghost use Rattle.checkdb_top.specs.StartStops.{sources_start, file_start, log_start};
ghost use Rattle.checkdb_top.specs.declared.status.Device.TheVariants.{Volume, Log, Source, Sink};

use crate::{Device, Status};
use run_file::{FileStop, LogWhy, SourcesStop, Texts, open_file, open_log, read_sources};
use std::alloc::Global;
use vol_dev::LogFile;
use vol_pool::Frames;

/// What a run begins with.
#[derive(Drop)]
pub struct Start {
    pub texts: Texts,
    pub frames: Frames,
}

fn of_sources(stop: SourcesStop) -> Status
    ensures { result ≡ sources_start stop }
{
    match stop {
        SourcesStop::Fault { script, line, why } => Status::Script { script, line, why },
        SourcesStop::Failed => Status::Device {
            which: Device::Source,
        },
        SourcesStop::NoMemory => Status::Memory,
    }
}

fn of_file(stop: FileStop) -> Status
    ensures { result ≡ file_start stop }
{
    match stop {
        FileStop::Refused(why) => Status::File(why),
        FileStop::Failed => Status::Device {
            which: Device::Volume,
        },
        FileStop::NoMemory => Status::Memory,
    }
}

fn of_log(stop: LogWhy) -> Status
    ensures { result ≡ log_start stop }
{
    match stop {
        LogWhy::Size => Status::LogSize,
        LogWhy::Later => Status::LogLater,
        LogWhy::Failed => Status::Device { which: Device::Log },
        LogWhy::NoMemory => Status::Memory,
    }
}

/// What a run begins with, or the status of one that doesn't begin. The sources are read first, in their order, then the file, then the log;
/// nothing is written.
pub fn start_run<V: vol_dev::Volume, L: LogFile, S: vol_dev::Source>(
    alloc: Global,
    volume: &mut V,
    log: &mut L,
    sources: &mut [S],
) -> Result<Start, Status>
    requires some { 0 < length sources.old }
    requires few { length sources.old ≤ 17 }
    ensures begins { IfOk result (λ start. Begins (length sources.old - 1) (map S.left sources.old) (V.contents volume.old) (L.contents log.old)
        start.texts.schedule.items (map (λ script. script.items) start.texts.scripts.items) start.frames) }
    ensures ends { OnOk result (All IsAtEnd (map S.left sources.new)) }
    ensures stops { IfErr result (StopsStart (map S.left sources.old) (V.contents volume.old) (L.contents log.old)) }
    ensures source_fault { IfErr result (λ s. IsDevice Source s → HasFailedSource (map S.left sources.old) (map S.faults sources.old) (map S.faults sources.new)) }
    ensures sink_fault { IfErr result (λ s. ¬ IsDevice Sink s) }
    ensures source_faults { NoneFell (map S.faults sources.old) (map S.faults sources.new) }
    ensures reads { ReadsFile V.Volume volume.old volume.new (IsErrAnd result (IsDevice Volume)) }
    ensures log { L.contents log.new ≡ L.contents log.old }
    ensures log_faults { Counts (IsErrAnd result (IsDevice Log)) (L.faults log.old) (L.faults log.new) }
{
    let texts = match read_sources(alloc, sources) {
        Ok(texts) => texts,
        Err(stop) => return Err(of_sources(stop)),
    };
    let frames = match open_file(alloc, volume) {
        Ok(frames) => frames,
        Err(stop) => return Err(of_file(stop)),
    };
    match open_log(alloc, log) {
        Ok(()) => Ok(Start { texts, frames }),
        Err(stop) => Err(of_log(stop)),
    }
}
