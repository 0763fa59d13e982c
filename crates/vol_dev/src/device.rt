ghost use Rattle.std.specs.Prelude.{◌≡◌, ◌⊎◌, ◌<◌, ◌≤◌, List, ℕ, length, take, drop, is_err, Option, IfSome, IfOk, IsErr, OnOk, OnErr, IsErrOf};
ghost use Rattle.std.specs.Option.{ForSome};
ghost use Rattle.std.specs.Io.KnownBytes.{prepend_known, IsAtEnd};
ghost use Rattle.spec_file.specs.Image.{page_at};
ghost use Rattle.pg_base.specs.Faults.{Counts};
ghost use Rattle.vol_dev.specs.declared.device.LogStop.TheVariants.{Failed, NoMemory};
ghost use Rattle.vol_dev.specs.Devices.{Grows, HasPage, FitsPage, MayHaveSpoiled, with_known_page};

use pg_base::{Page, PageNo};
use spec_log::LONGEST_LOG;
use std::alloc::AllocError;

/// A device failed in this call, and counted it.
#[derive(Clone, Copy, Debug, PartialEq, Eq)]
pub struct DeviceFailed;

/// A data file: bytes that are read and written by pages of 8,192 (Pages and Extents Architecture
/// Guide). Counts and what is told of contents are this project's own.
pub trait Volume {
    /// The bytes that the file holds, where it tells them.
    ghost contents: { Self → Option (List ℕ) };

    /// How often the file has failed. The count never falls.
    ghost faults: { Self → ℕ };

    /// How many bytes the file has. Only a failure counts.
    fn size(&mut self) -> Result<u64, DeviceFailed>
        ensures ok { IfOk result (λ n. IfSome (contents self.old) (λ bytes. n ≡ length bytes)) }
        ensures same { contents self.new ≡ contents self.old }
        ensures still { OnOk result (faults self.new ≡ faults self.old) }
        ensures faults { Counts (IsErr result) (faults self.old) (faults self.new) };

    /// Fills `into` with page `p`. After a failure `into` may hold anything. Only a failure counts.
    fn read(&mut self, p: PageNo, into: &mut Page) -> Result<(), DeviceFailed>
        requires { ForSome (contents self.old) (HasPage p.0) }
        ensures ok { OnOk result (IfSome (contents self.old)
            (λ bytes. into.new.bytes ≡ page_at bytes p.0)) }
        ensures same { contents self.new ≡ contents self.old }
        ensures still { OnOk result (faults self.new ≡ faults self.old) }
        ensures faults { Counts (IsErr result) (faults self.old) (faults self.new) };

    /// Makes `from` page `p`; at the number of pages it adds one.
    fn write(&mut self, p: PageNo, from: &Page) -> Result<(), DeviceFailed>
        requires { ForSome (contents self.old) (FitsPage p.0) }
        ensures ok { OnOk result
            (contents self.new ≡ with_known_page (contents self.old) p.0 from.now.bytes) }
        ensures err { OnErr result (MayHaveSpoiled (contents self.old) (contents self.new) p.0) }
        ensures faults { Counts (IsErr result) (faults self.old) (faults self.new) };
}

/// Why a log was not read.
#[derive(Clone, Copy, Debug, PartialEq, Eq)]
pub enum LogStop {
    /// The log's device failed in this call, and counted it.
    Failed,
    /// The log has more than `LONGEST_LOG` bytes.
    TooLong,
    NoMemory,
}

impl From<DeviceFailed> for LogStop {
    ghost from_gives = { λ _ stop. stop ≡ Failed };

    fn from(_: DeviceFailed) -> Self {
        LogStop::Failed
    }
}

impl From<AllocError> for LogStop {
    ghost from_gives = { λ _ stop. stop ≡ NoMemory };

    fn from(_: AllocError) -> Self {
        LogStop::NoMemory
    }
}

/// A log of changes, which only grows (this project's own).
pub trait LogFile {
    /// The bytes that the log holds, where it tells them.
    ghost contents: { Self → Option (List ℕ) };

    /// How often the log has failed. The count never falls.
    ghost faults: { Self → ℕ };

    /// Makes `into` the whole log. At any error `into` is as before.
    fn read_all(&mut self, into: &mut Vec<u8>) -> Result<(), LogStop>
        ensures ok { OnOk result (IfSome (contents self.old) (λ bytes. into.new.items ≡ bytes)) }
        ensures err { OnErr result (into.new.items ≡ into.old.items) }
        ensures same { contents self.new ≡ contents self.old }

        // `TooLong` comes exactly where the log is too long and this call met no failure.
        ensures too_long { IsErrOf result LogStop.TooLong
            → IfSome (contents self.old) (λ bytes. LONGEST_LOG < length bytes) }
        ensures no_fault { IsErrOf result LogStop.TooLong → faults self.new ≡ faults self.old }
        ensures refused { IfSome (contents self.old) (λ bytes. LONGEST_LOG < length bytes
            → IsErrOf result LogStop.TooLong ⊎ IsErrOf result LogStop.Failed) }

        ensures no_memory { IsErrOf result LogStop.NoMemory → faults self.new ≡ faults self.old }
        ensures faults { Counts (IsErrOf result LogStop.Failed) (faults self.old) (faults self.new) };

    /// Adds the bytes at the end. After a failure a front of them stands there.
    fn append(&mut self, bytes: &[u8]) -> Result<(), DeviceFailed>
        ensures grows { Grows (contents self.old) (contents self.new) bytes.now (is_err result) }
        ensures faults { Counts (IsErr result) (faults self.old) (faults self.new) };
}

/// Bytes that are read from the front to the end, as a script or a schedule (this project's own).
pub trait Source {
    /// The bytes that it has left, where it tells them.
    ghost left: { Self → Option (List ℕ) };

    /// How often the source has failed. The count never falls.
    ghost faults: { Self → ℕ };

    /// Moves a front of the bytes that are left to the front of `into`, and says how many. It says 0
    /// for a piece that isn't empty exactly at the end. After a failure `into` may hold anything.
    fn read(&mut self, into: &mut [u8]) -> Result<usize, DeviceFailed>
        ensures bound { IfOk result (λ n. n ≤ length into.old) }
        ensures moved { IfOk result
            (λ n. left self.old ≡ prepend_known (take n into.new) (left self.new)) }
        ensures end { IfOk result (λ n. n ≡ 0 → 0 < length into.old → IsAtEnd (left self.new)) }
        ensures rest { IfOk result (λ n. drop n into.new ≡ drop n into.old) }
        ensures err { OnErr result (left self.new ≡ left self.old) }
        ensures faults { Counts (IsErr result) (faults self.old) (faults self.new) };
}

/// An output, which only grows (this project's own).
pub trait Sink {
    /// The bytes that were written, where it tells them.
    ghost contents: { Self → Option (List ℕ) };

    /// How often the output has failed. The count never falls.
    ghost faults: { Self → ℕ };

    /// Adds the bytes at the end. After a failure a front of them stands there.
    fn write(&mut self, bytes: &[u8]) -> Result<(), DeviceFailed>
        ensures grows { Grows (contents self.old) (contents self.new) bytes.now (is_err result) }
        ensures faults { Counts (IsErr result) (faults self.old) (faults self.new) };
}
