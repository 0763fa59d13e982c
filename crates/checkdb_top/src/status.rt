// How a command ended.
ghost use Rattle.std.specs.Prelude.{◌≡◌};
ghost use Rattle.checkdb_top.specs.Status.{code_of};

use spec_script::ScriptWhy;
use spec_start::FileWhy;

/// The device that failed.
#[derive(Clone, Copy, Debug, PartialEq, Eq)]
pub enum Device {
    Volume,
    Log,
    Source,
    Sink,
}

/// How a command ended. All numbers and meanings are this project's own.
#[derive(Clone, Copy, Debug, PartialEq, Eq)]
pub enum Status {
    /// The report was written and has no error.
    Clean,
    /// The report was written and has an error.
    Errors,
    /// The words of the command line are wrong; the first wrong or missing one, from 1.
    Words {
        at: u32,
    },
    /// A script, counted from 1, or the schedule, 0, is none of the language: the first of them, its
    /// first line that is wrong, and why; line 0 where the text is too long.
    Script {
        script: u32,
        line: u32,
        why: ScriptWhy,
    },
    /// The data file fails a test.
    File(FileWhy),
    /// The log has more bytes than a log may have when it is opened.
    LogSize,
    /// The log isn't empty, and is to be taken later.
    LogLater,
    /// A device failed.
    Device {
        which: Device,
    },
    /// Memory ran out.
    Memory,
    /// A check of a run ended without its report.
    NoReport,
}

impl Status {
    /// The exit status of the program.
    pub fn code(&self) -> u8
        ensures { result ≡ code_of self.now }
    {
        match self {
            Status::Clean => 0,
            Status::Errors => 1,
            Status::Words { .. } => 2,
            Status::Script { .. } => 3,
            Status::File(_) | Status::LogSize | Status::LogLater => 4,
            Status::Device { .. } => 5,
            Status::Memory => 6,
            Status::NoReport => 7,
        }
    }
}
