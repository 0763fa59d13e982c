// Why a source, its text or the sources of a run were not read.
ghost use Rattle.std.specs.Prelude.{◌≡◌};
ghost use Rattle.run_file.specs.Stops.{sources_stop};

use spec_file::NoMemory;
use spec_script::ScriptWhy;
use std::alloc::{AllocError, AllocFailed};
use vol_dev::DeviceFailed;

/// Why a source was not read to its end.
#[derive(Clone, Copy)]
pub enum SourceStop {
    /// The source failed in this call, and counted it.
    Failed,
    NoMemory,
}

impl From<DeviceFailed> for SourceStop {
    ghost use Rattle.run_file.specs.declared.stop.SourceStop.TheVariants.{Failed};

    ghost from_gives = { λ _ stop. stop ≡ Failed };

    fn from(_: DeviceFailed) -> Self {
        SourceStop::Failed
    }
}

impl From<AllocError> for SourceStop {
    ghost use Rattle.run_file.specs.declared.stop.SourceStop.TheVariants.{NoMemory};

    ghost from_gives = { λ _ stop. stop ≡ NoMemory };

    fn from(_: AllocError) -> Self {
        SourceStop::NoMemory
    }
}

/// Why the text of a source was not read.
#[derive(Clone, Copy)]
pub enum TextStop {
    /// The first line that is wrong, counted from 1, and why; line 0 where the text is too long.
    Fault { line: u32, why: ScriptWhy },
    /// The source failed in this call, and counted it.
    Failed,
    NoMemory,
}

impl From<SourceStop> for TextStop {
    ghost use Rattle.run_file.specs.Stops.{text_stop};

    ghost from_gives = { λ stop gives. gives ≡ text_stop stop };

    fn from(stop: SourceStop) -> Self {
        match stop {
            SourceStop::Failed => TextStop::Failed,
            SourceStop::NoMemory => TextStop::NoMemory,
        }
    }
}

/// Why the sources of a run were not read.
#[derive(Clone, Copy, Debug, PartialEq, Eq)]
pub enum SourcesStop {
    /// The first source that is wrong, 0 for the schedule and counted from 1 for a script; its first
    /// line that is wrong, counted from 1, and why. Line 0 stands where the text is too long.
    Fault {
        script: u32,
        line: u32,
        why: ScriptWhy,
    },
    /// A source failed in this call, and counted it.
    Failed,
    NoMemory,
}

impl<T: Drop> From<AllocFailed<T>> for SourcesStop {
    ghost use Rattle.run_file.specs.declared.stop.SourcesStop.TheVariants.{NoMemory};

    ghost from_gives = { λ _ stop. stop ≡ NoMemory };

    fn from(_: AllocFailed<T>) -> Self {
        SourcesStop::NoMemory
    }
}

/// The same stop, of source k.
pub fn of_source(k: u32, stop: TextStop) -> SourcesStop
    ensures { result ≡ sources_stop k stop }
{
    match stop {
        TextStop::Fault { line, why } => SourcesStop::Fault {
            script: k,
            line,
            why,
        },
        TextStop::Failed => SourcesStop::Failed,
        TextStop::NoMemory => SourcesStop::NoMemory,
    }
}
