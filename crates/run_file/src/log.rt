// The log of a run, which is empty when the run begins.
ghost use Rattle.std.specs.Prelude.{◌≡◌, [], IfSome, IsErrOf, OnOk};
ghost use Rattle.pg_base.specs.Faults.{Counts};
ghost use Rattle.run_file.specs.Log.{LogFault};

use std::alloc::Global;
use vol_dev::{LogFile, LogStop};

/// Why a log is not taken.
#[derive(Clone, Copy, Debug, PartialEq, Eq)]
pub enum LogWhy {
    /// It has more bytes than a log may have when it is opened.
    Size,
    /// It isn't empty, and is to be taken later.
    Later,
    /// The log failed in this call, and counted it.
    Failed,
    NoMemory,
}

/// Whether a log is empty: it is, at Ok, and else it is told why it is not taken.
pub fn open_log<L: LogFile>(alloc: Global, log: &mut L) -> Result<(), LogWhy>
    ensures empty { OnOk result (IfSome (L.contents log.old) (λ bytes. bytes ≡ [])) }
    ensures fault { LogFault (L.contents log.old) result }
    ensures same { L.contents log.new ≡ L.contents log.old }
    ensures faults { Counts (IsErrOf result LogWhy.Failed) (L.faults log.old) (L.faults log.new) }
{
    let mut bytes = Vec::new(alloc);
    match log.read_all(&mut bytes) {
        Ok(()) => {
            if bytes.is_empty() {
                Ok(())
            } else {
                Err(LogWhy::Later)
            }
        }
        Err(LogStop::TooLong) => Err(LogWhy::Size),
        Err(LogStop::Failed) => Err(LogWhy::Failed),
        Err(LogStop::NoMemory) => Err(LogWhy::NoMemory),
    }
}
