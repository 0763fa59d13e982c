ghost use Rattle.std.specs.Prelude.{◌≡◌, ◌⊎◌, ◌<◌, ◌≤◌, length, map, IfSome, Some};
ghost use Rattle.pg_base.specs.Faults.{Rose, Counts};
ghost use Rattle.app_words.specs.Words.{first_wrong, Asks, AsksStill};
ghost use Rattle.app_words.specs.declared.command.Command.TheVariants.{Check, ShowPage, Replay};
ghost use Rattle.spec_file.specs.declared.data.PageNo.{PageNo};
ghost use Rattle.spec_start.specs.Sources.{AreKnown, HasFailedSource, NoneFell, OneRose};
ghost use Rattle.checkdb_top.specs.Runs.{Ends};
ghost use Rattle.checkdb_top.specs.Answers.{Answers, IsDevice, IsWordsAt};
ghost use Rattle.checkdb_top.specs.Completeness.{Completes, CompletesRun};
ghost use Rattle.checkdb_top.specs.Printings.{check_printing, page_printing};
ghost use Rattle.checkdb_top.specs.declared.status.Device.TheVariants.{Volume, Sink};
ghost use Rattle.checkdb_top.specs.declared.status.Status.TheVariants.{NoReport};

use crate::check::check;
use crate::file::Finished;
use crate::run::run;
use crate::show::show;
use crate::{Device, Status};
use app_words::{Command, read_words};
use ck_scan::Gate;
use pg_base::Words;
use std::alloc::Global;
use vol_dev::{LogFile, Source};

/// The status of a command, and the devices that it was given.
pub struct Outcome<V, L> {
    pub status: Status,
    pub volume: V,
    pub log: L,
}

/// Does a command on one thread, and returns for every input.
///
/// `check DATA` writes the report of a still file, `page DATA P` the header and the slots of its page P;
/// nothing but the output is written. `replay DATA LOG SCHEDULE SCRIPT ..` runs scripts as sessions, in
/// turns, over the file.
pub fn plain_top<V: vol_dev::Volume, L: LogFile, S: Source, K: vol_dev::Sink, G: Gate>(
    alloc: Global,
    words: &Words,
    volume: V,
    log: L,
    sources: &mut Vec<S>,
    out: &mut K,
    gate: &G,
) -> Outcome<V, L>
    // For a run there is a source for the schedule, and one for each of at most sixteen scripts.
    requires some { Asks Replay words.now → 0 < length sources.old.items }
    requires few { Asks Replay words.now → length sources.old.items ≤ 17 }

    // The status names the first word that is wrong or missing, and then no device was called. It names a
    // word else only where a page is asked for that the file hasn't.
    ensures words { (at : _) → first_wrong words.now ≡ Some at → IsWordsAt at result.status }
    ensures words_only { (at : _) → IsWordsAt at result.status → (first_wrong words.now ≡ Some at) ⊎ ((p : PageNo) × Asks (ShowPage p) words.now) }
    ensures no_call { (at : _) → first_wrong words.now ≡ Some at →
        (result.volume ≡ volume) × (result.log ≡ log) × (sources.new ≡ sources.old) × (out.new ≡ out.old) }

    // What each status of a check says of the file and of the output; nothing but the output changes.
    ensures answers { Asks Check words.now → Answers check_printing (V.contents volume) (K.contents out.old) (K.contents out.new) result.status }
    ensures volume { AsksStill words.now → V.contents result.volume ≡ V.contents volume }
    ensures log { AsksStill words.now → result.log ≡ log }
    ensures sources { AsksStill words.now → sources.new ≡ sources.old }

    // The same of `page`.
    ensures shows { (p : PageNo) → Asks (ShowPage p) words.now → Answers (page_printing p.0) (V.contents volume) (K.contents out.old) (K.contents out.new) result.status }

    // How a run ends.
    ensures ends { Asks Replay words.now → Ends (map S.left sources.old.items) (map S.left sources.new.items)
        (V.contents volume) (V.contents result.volume) (L.contents log) (L.contents result.log) (K.contents out.old) (K.contents out.new) result.status }

    // No source is dropped or added.
    ensures count { length sources.new.items ≡ length sources.old.items }

    // A device is named only where its count of faults rose, also where it tells nothing, and a source only
    // where those before it are right; a check never names log and sources.
    ensures volume_faults { Counts (IsDevice Device.Volume result.status) (V.faults volume) (V.faults result.volume) }
    ensures log_faults { Counts (IsDevice Device.Log result.status) (L.faults log) (L.faults result.log) }
    ensures sink_faults { Counts (IsDevice Device.Sink result.status) (K.faults out.old) (K.faults out.new) }
    ensures source_fault { IsDevice Device.Source result.status →
        HasFailedSource (map S.left sources.old.items) (map S.faults sources.old.items) (map S.faults sources.new.items) }
    ensures source_faults { NoneFell (map S.faults sources.old.items) (map S.faults sources.new.items) }

    // Where a check or a page is asked for and no device fails, the file's form fixes the status, but for want of
    // memory.
    ensures complete { Asks Check words.now → IfSome (V.contents volume) (λ bytes.
        ¬ Rose (V.faults volume) (V.faults result.volume) → ¬ Rose (K.faults out.old) (K.faults out.new) →
        Completes check_printing bytes result.status) }
    ensures complete_page { (p : PageNo) → Asks (ShowPage p) words.now → IfSome (V.contents volume) (λ bytes.
        ¬ Rose (V.faults volume) (V.faults result.volume) → ¬ Rose (K.faults out.old) (K.faults out.new) →
        Completes (page_printing p.0) bytes result.status) }

    // Where a run is asked for, all that it reads is told and no device fails, the sources, the file and
    // the log fix the status, but for want of memory.
    ensures complete_run { Asks Replay words.now → AreKnown (map S.left sources.old.items) →
        IfSome (V.contents volume) (λ bytes. IfSome (L.contents log) (λ items.
        ¬ Rose (V.faults volume) (V.faults result.volume) → ¬ Rose (L.faults log) (L.faults result.log) →
        ¬ Rose (K.faults out.old) (K.faults out.new) →
        ¬ OneRose (map S.faults sources.old.items) (map S.faults sources.new.items) →
        CompletesRun (map S.left sources.old.items) bytes items result.status)) }

    // No check of a run ends without its report but for want of memory: the log is empty when it begins.
    ensures no_terminated { Asks Replay words.now → ¬ (result.status ≡ NoReport) }
{
    match read_words(words) {
        Err(stop) => Outcome {
            status: Status::Words { at: stop.at },
            volume,
            log,
        },
        Ok(Command::Check) => {
            let Finished { status, volume } = check(alloc, volume, out);
            Outcome {
                status,
                volume,
                log,
            }
        }
        Ok(Command::ShowPage(p)) => {
            let Finished { status, volume } = show(alloc, volume, p, out);
            Outcome {
                status,
                volume,
                log,
            }
        }
        Ok(Command::Replay) => {
            let mut volume = volume;
            let mut log = log;
            let status = run(alloc, &mut volume, &mut log, sources.as_mut_slice(), out);
            Outcome {
                status,
                volume,
                log,
            }
        }
    }
}
