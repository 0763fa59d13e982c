ghost use Rattle.std.specs.Prelude.{◌≡◌};

use spec_file::NoMemory;
use spec_script::ScriptWhy;
use std::alloc::AllocFailed;

/// Why a script or a schedule was not read.
#[derive(Clone, Copy, Debug, PartialEq, Eq)]
pub enum ScriptStop {
    /// The first line that is wrong, counted from 1, and why; line 0 where the text is too long.
    Fault { line: u32, why: ScriptWhy },
    NoMemory,
}

impl From<NoMemory> for ScriptStop {
    ghost use Rattle.sql_script.specs.declared.stop.ScriptStop.TheVariants.{NoMemory};

    ghost from_gives = { λ _ stop. stop ≡ NoMemory };

    fn from(_: NoMemory) -> Self {
        ScriptStop::NoMemory
    }
}

impl<T: Drop> From<AllocFailed<T>> for ScriptStop {
    ghost use Rattle.sql_script.specs.declared.stop.ScriptStop.TheVariants.{NoMemory};

    ghost from_gives = { λ _ stop. stop ≡ NoMemory };

    fn from(_: AllocFailed<T>) -> Self {
        ScriptStop::NoMemory
    }
}
