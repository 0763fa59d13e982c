// How a device counts its failures.
ghost use Rattle.std.specs.Prelude.{◌≤◌};
ghost use Rattle.pg_base.specs.Faults.{Rose};

use crate::DeviceFailed;

/// How often a device has failed.
#[derive(Clone, Copy)]
pub struct FaultCount {
    pub value: u64,
}

impl FaultCount {
    pub const ZERO: FaultCount = FaultCount { value: 0 };

    /// Counts one more failure, and gives it as an error. At its end the count stands still.
    pub fn failed(&mut self) -> DeviceFailed
        ensures rose { Rose self.old.value self.new.value }
        ensures later { self.old.value ≤ self.new.value }
    {
        self.value = self.value.saturating_add(1);
        DeviceFailed
    }
}
