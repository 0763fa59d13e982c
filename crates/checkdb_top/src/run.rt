// A run of sessions on one thread, from its sources to the text of its replies.
ghost use Rattle.std.specs.Prelude.{◌≡◌, ◌<◌, ◌≤◌, ◌^◌, [], length, map, is_err, IfOk, IfSome, IsOkAnd, OnErr, false};
ghost use Rattle.std.specs.List.{list_any};
ghost use Rattle.pg_base.specs.Faults.{Counts};
ghost use Rattle.vol_dev.specs.Output.{Wrote};
ghost use Rattle.spec_script.specs.Replies.{text_of};
ghost use Rattle.spec_run.specs.Entries.{items_of};
ghost use Rattle.spec_run.specs.Turns.{IsWhole};
ghost use Rattle.law_run.specs.Laws.{IsStart};
ghost use Rattle.spec_start.specs.Sources.{HasFailedSource, NoneFell};
ghost use Rattle.spec_start.specs.Files.{AreAllPages};
ghost use Rattle.checkdb_top.specs.Answers.{IsDevice};
ghost use Rattle.checkdb_top.specs.Runs.{replies_to, AreAllTold, Closes, Ends};
ghost use Rattle.checkdb_top.specs.Writes.{Writes};
ghost use Rattle.spec_run.specs.Answers.{is_terminated};
ghost use Rattle.checkdb_top.specs.Readiness.{IsMade, IsOver, MayBegin, AreFew};
ghost use Rattle.vol_pool.specs.Writing.{is_marked};
ghost use Rattle.run_close.specs.Close.{MayClose};
ghost use Rattle.checkdb_top.specs.declared.status.Device.{Device as AnyDevice};
ghost use Rattle.checkdb_top.specs.declared.status.Device.TheVariants.{Volume, Log, Source, Sink};

use crate::ended::ended;
use crate::start::{Start, start_run};
use crate::{Device, Status};
use db_core::Core;
use pg_base::NoMemory;
use run_close::{Close, CloseStop, write_session};
use run_file::Texts;
use spec_script::Reply;
use std::alloc::Global;
use vol_dev::{DeviceFailed, LogFile};
use vol_pool::Frames;

// The sessions after the turns of the schedule and all others.
fn replayed(alloc: Global, start: Start) -> Result<Core, NoMemory>
    requires { MayBegin start }
    ensures { IfOk result (IsOver start.frames start.texts.schedule.items (map (λ script. script.items) start.texts.scripts.items)) }
{
    let Start { texts, frames } = start;
    let Texts { schedule, scripts } = texts;
    let mut core = Core::begin(alloc, frames, scripts)?;
    core.replay(&schedule);
    Ok(core)
}

// What all sessions answered.
fn replies_of(alloc: Global, core: &Core) -> Result<Vec<&[Reply]>, NoMemory>
    ensures count { IfOk result (λ all. length all.items ≡ length core.now.run.scripts) }
    ensures told { IfOk result (λ all. AreAllTold core.now.run (items_of core.now.entries) (replies_to (map (λ r. r.now) all.items))) }
    ensures few { IfOk result (λ all. AreFew (map (λ r. r.now) all.items)) }
{
    let mut all = Vec::new(alloc);
    for k in 0..core.sessions() {
        all.push(core.replies(k + 1))?;
    }
    Ok(all)
}

// Writes the replies of all sessions, in their order.
fn write_replies<K: vol_dev::Sink>(replies: &[&[Reply]], out: &mut K) -> Result<(), DeviceFailed>
    requires few { AreFew (map (λ r. r.now) replies.now) }
    requires sessions { length replies.now < 2 ^ 32 }
    ensures { Wrote K.Sink out.old out.new (text_of (map (λ r. r.now) replies.now)) (is_err result) }
{
    for (k, session) in replies.iter().enumerate() {
        write_session(k as u32 + 1, session, out)?;
    }
    Ok(())
}

// The status of a run whose items, pages and replies are written, or of the device that fails first.
fn write_run<V: vol_dev::Volume, L: LogFile, K: vol_dev::Sink>(
    close: &Close,
    frames: &Frames,
    replies: &[&[Reply]],
    known: Status,
    volume: &mut V,
    log: &mut L,
    out: &mut K,
) -> Status
    requires may { MayClose close.now frames.now (V.contents volume.old) }
    requires few { AreFew (map (λ r. r.now) replies.now) }
    requires sessions { length replies.now < 2 ^ 32 }
    requires known { (d : AnyDevice) → ¬ IsDevice d known }
    ensures writes { Writes close.now.bytes.items (is_marked close.now.changed.items) frames.now (text_of (map (λ r. r.now) replies.now)) known
        (V.contents volume.old) (V.contents volume.new) (L.contents log.old) (L.contents log.new) (K.contents out.old) (K.contents out.new) result }
    ensures source_fault { ¬ IsDevice Source result }
    ensures volume_faults { Counts (IsDevice Volume result) (V.faults volume.old) (V.faults volume.new) }
    ensures log_faults { Counts (IsDevice Log result) (L.faults log.old) (L.faults log.new) }
    ensures sink_faults { Counts (IsDevice Sink result) (K.faults out.old) (K.faults out.new) }
{
    match close.write(frames, volume, log) {
        Err(CloseStop::Log) => return Status::Device { which: Device::Log },
        Err(CloseStop::Volume) => {
            return Status::Device {
                which: Device::Volume,
            };
        }
        Ok(()) => {}
    }
    match write_replies(replies, out) {
        Err(_) => Status::Device {
            which: Device::Sink,
        },
        Ok(()) => known,
    }
}

// Closes a run whose sessions are done. Where memory runs out, nothing was written.
fn close_run<V: vol_dev::Volume, L: LogFile, K: vol_dev::Sink>(
    alloc: Global,
    core: &Core,
    volume: &mut V,
    log: &mut L,
    out: &mut K,
) -> Result<Status, NoMemory>
    requires opened { core.now.run.opened ≡ [] }
    requires start { IsStart core.now.run }
    requires made { IsMade core.now.run core.now.entries }
    requires whole { IsWhole core.now.run core.now.entries }
    requires sessions { length core.now.run.scripts ≤ 16 }
    requires file { IfSome (V.contents volume.old) (AreAllPages core.now.run.image) }
    ensures closes { IfOk result (Closes core.now.run core.now.entries (V.contents volume.old) (V.contents volume.new)
        (L.contents log.old) (L.contents log.new) (K.contents out.old) (K.contents out.new)) }
    ensures volume { OnErr result (V.contents volume.new ≡ V.contents volume.old) }
    ensures log { OnErr result (L.contents log.new ≡ L.contents log.old) }
    ensures out { OnErr result (K.contents out.new ≡ K.contents out.old) }
    ensures source_fault { IfOk result (λ s. ¬ IsDevice Source s) }
    ensures volume_faults { Counts (IsOkAnd result (IsDevice Volume)) (V.faults volume.old) (V.faults volume.new) }
    ensures log_faults { Counts (IsOkAnd result (IsDevice Log)) (L.faults log.old) (L.faults log.new) }
    ensures sink_faults { Counts (IsOkAnd result (IsDevice Sink)) (K.faults out.old) (K.faults out.new) }
{
    let replies = replies_of(alloc, core)?;
    let items = core.items();
    let close = Close::of(alloc, items, core.frames().count())?;
    let known = ended(core, &replies);
    Ok(write_run(&close, core.frames(), &replies, known, volume, log, out))
}

/// Runs scripts as sessions on one thread, in the turns of the schedule and then each session to its end,
/// and closes the file and the log. The first source is the schedule.
pub fn run<V: vol_dev::Volume, L: LogFile, S: vol_dev::Source, K: vol_dev::Sink>(
    alloc: Global,
    volume: &mut V,
    log: &mut L,
    sources: &mut [S],
    out: &mut K,
) -> Status
    requires some { 0 < length sources.old }
    requires few { length sources.old ≤ 17 }
    ensures ends { Ends (map S.left sources.old) (map S.left sources.new) (V.contents volume.old) (V.contents volume.new)
        (L.contents log.old) (L.contents log.new) (K.contents out.old) (K.contents out.new) result }
    ensures source_fault { IsDevice Source result → HasFailedSource (map S.left sources.old) (map S.faults sources.old) (map S.faults sources.new) }
    ensures volume_faults { Counts (IsDevice Volume result) (V.faults volume.old) (V.faults volume.new) }
    ensures log_faults { Counts (IsDevice Log result) (L.faults log.old) (L.faults log.new) }
    ensures sink_faults { Counts (IsDevice Sink result) (K.faults out.old) (K.faults out.new) }
    ensures source_faults { NoneFell (map S.faults sources.old) (map S.faults sources.new) }
{
    let start = match start_run(alloc, volume, log, sources) {
        Ok(start) => start,
        Err(status) => return status,
    };
    let core = match replayed(alloc, start) {
        Ok(core) => core,
        Err(NoMemory) => return Status::Memory,
    };
    match close_run(alloc, &core, volume, log, out) {
        Ok(status) => status,
        Err(NoMemory) => Status::Memory,
    }
}
