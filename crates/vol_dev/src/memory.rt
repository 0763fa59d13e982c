// The devices in memory. They tell what they hold, and fail where they were told to. A write or append
// that finds no memory to grow counts as a failure.
ghost use Rattle.std.specs.Prelude.{◌≡◌, ◌+◌, ◌*◌, ◌≤◌, ◌<◌, min, [], drop, vec_len, Some, OnOk, OnErr};
ghost use Rattle.vol_dev.specs.Devices.{with_page};

use crate::count::FaultCount;
use crate::pieces::copy_front;
use crate::{DeviceFailed, LogFile, LogStop, Sink, Source, Volume};
use pg_base::{PAGE_SIZE, Page, PageNo};
use spec_log::LONGEST_LOG;
use std::alloc::{AllocError, Global};

/// Where a data file in memory is to fail: the `nth` read, or write, of that page, from 1.
#[derive(Clone, Copy)]
pub struct FailAt {
    pub page: PageNo,
    pub write: bool,
    pub nth: u32,
}

/// A data file in memory.
#[derive(Drop)]
pub struct MemVolume {
    bytes: Vec<u8>,
    failing: Vec<FailAt>,
    faults: FaultCount,
}

impl MemVolume {
    ghost use Rattle.vol_dev.specs.Memory.{volume_bytes};

    /// A file of these bytes that fails at these uses of its pages.
    pub fn of(bytes: Vec<u8>, failing: Vec<FailAt>) -> MemVolume
        ensures { volume_bytes result ≡ bytes.items }
    {
        MemVolume {
            bytes,
            failing,
            faults: FaultCount::ZERO,
        }
    }

    /// The bytes that the file holds.
    pub fn into_bytes(self) -> Vec<u8>
        ensures { result.items ≡ volume_bytes self }
    {
        self.bytes
    }
}

impl Volume for MemVolume {
    ghost contents = { λ volume. Some volume.bytes.items };

    ghost faults = { λ volume. volume.faults.value };

    fn size(&mut self) -> Result<u64, DeviceFailed> {
        Ok(self.bytes.len() as u64)
    }

    fn read(&mut self, p: PageNo, into: &mut Page) -> Result<(), DeviceFailed> {
        if is_to_fail(&mut self.failing, p, false) {
            return Err(self.faults.failed());
        }
        let start = PAGE_SIZE * p.0 as usize;
        into.bytes
            .copy_from_slice(&self.bytes[start..start + PAGE_SIZE]);
        Ok(())
    }

    fn write(&mut self, p: PageNo, from: &Page) -> Result<(), DeviceFailed> {
        if is_to_fail(&mut self.failing, p, true) {
            return Err(self.faults.failed());
        }
        match put_page(&mut self.bytes, p, from) {
            Ok(()) => Ok(()),
            Err(_) => Err(self.faults.failed()),
        }
    }
}

// Counts a use of a page, and says whether it is to fail.
fn is_to_fail(failing: &mut Vec<FailAt>, page: PageNo, write: bool) -> bool {
    let mut is_to_fail = false;
    for at in failing.iter_mut() {
        if at.page == page && at.write == write {
            is_to_fail = is_to_fail || at.nth == 1;
            at.nth = at.nth.saturating_sub(1);
        }
    }
    is_to_fail
}

// Puts a page in its place among the bytes, which may end before it or inside it.
fn put_page(bytes: &mut Vec<u8>, p: PageNo, from: &Page) -> Result<(), AllocError>
    requires { 8192 * p.0 ≤ vec_len bytes.old }
    ensures ok { OnOk result (bytes.new.items ≡ with_page bytes.old.items p.0 from.now.bytes) }
    ensures err { OnErr result (bytes.new.items ≡ bytes.old.items) }
{
    let start = PAGE_SIZE * p.0 as usize;
    let held = PAGE_SIZE.min(bytes.len() - start);
    bytes.extend_from_slice(&from.bytes[held..])?;
    bytes[start..start + held].copy_from_slice(&from.bytes[..held]);
    Ok(())
}

/// A log in memory.
#[derive(Drop)]
pub struct MemLog {
    bytes: Vec<u8>,
    fail_read: bool,
    fail_append: Option<u32>,
    faults: FaultCount,
}

impl MemLog {
    ghost use Rattle.vol_dev.specs.Memory.{log_bytes};

    /// A log of these bytes. Each read fails where `fail_read` says so, and each append that has more
    /// bytes than `fail_append` fails after so many.
    pub fn of(bytes: Vec<u8>, fail_read: bool, fail_append: Option<u32>) -> MemLog
        ensures { log_bytes result ≡ bytes.items }
    {
        MemLog {
            bytes,
            fail_read,
            fail_append,
            faults: FaultCount::ZERO,
        }
    }

    /// The bytes that the log holds.
    pub fn into_bytes(self) -> Vec<u8>
        ensures { result.items ≡ log_bytes self }
    {
        self.bytes
    }
}

impl LogFile for MemLog {
    ghost contents = { λ log. Some log.bytes.items };

    ghost faults = { λ log. log.faults.value };

    fn read_all(&mut self, into: &mut Vec<u8>) -> Result<(), LogStop> {
        if self.fail_read {
            return Err(self.faults.failed().into());
        }
        if self.bytes.len() as u64 > LONGEST_LOG {
            return Err(LogStop::TooLong);
        }
        *into = Vec::from_slice(*into.allocator(), &self.bytes)?;
        Ok(())
    }

    fn append(&mut self, bytes: &[u8]) -> Result<(), DeviceFailed> {
        let taken = match self.fail_append {
            Some(most) => bytes.len().min(most as usize),
            None => bytes.len(),
        };
        match self.bytes.extend_from_slice(&bytes[..taken]) {
            Ok(()) if taken == bytes.len() => Ok(()),
            _ => Err(self.faults.failed()),
        }
    }
}

/// A source in memory.
#[derive(Drop)]
pub struct MemSource {
    bytes: Vec<u8>,
    taken: usize,
    fail_at: Option<u32>,
    calls: u32,
    faults: FaultCount,
    ghost in_range: { taken ≤ vec_len bytes },
}

impl MemSource {
    ghost use Rattle.vol_dev.specs.Memory.{source_bytes};

    /// A source of these bytes. The call with the number `fail_at`, from 1, fails.
    pub fn of(bytes: Vec<u8>, fail_at: Option<u32>) -> MemSource
        ensures { source_bytes result ≡ bytes.items }
    {
        MemSource {
            bytes,
            taken: 0,
            fail_at,
            calls: 0,
            faults: FaultCount::ZERO,
        }
    }

    /// The bytes that it has left.
    pub fn into_bytes(self) -> Vec<u8>
        ensures { result.items ≡ source_bytes self }
    {
        let MemSource {
            mut bytes,
            taken,
            ..
        } = self;
        let left = bytes.len() - taken;
        bytes.rotate_left(taken);
        bytes.truncate(left);
        bytes
    }
}

impl Source for MemSource {
    ghost left = { λ source. Some (drop source.taken source.bytes.items) };

    ghost faults = { λ source. source.faults.value };

    fn read(&mut self, into: &mut [u8]) -> Result<usize, DeviceFailed> {
        self.calls = self.calls.saturating_add(1);
        if self.fail_at == Some(self.calls) {
            return Err(self.faults.failed());
        }
        let count = copy_front(&self.bytes[self.taken..], into);
        self.taken += count;
        Ok(count)
    }
}

/// An output in memory.
#[derive(Drop)]
pub struct MemSink {
    bytes: Vec<u8>,
    fail_at: Option<u32>,
    calls: u32,
    faults: FaultCount,
}

impl MemSink {
    ghost use Rattle.vol_dev.specs.Memory.{sink_bytes};

    /// An empty output. The call with the number `fail_at`, from 1, fails.
    pub fn of(alloc: Global, fail_at: Option<u32>) -> MemSink
        ensures { sink_bytes result ≡ [] }
    {
        MemSink {
            bytes: Vec::new(alloc),
            fail_at,
            calls: 0,
            faults: FaultCount::ZERO,
        }
    }

    /// The bytes that were written.
    pub fn into_bytes(self) -> Vec<u8>
        ensures { result.items ≡ sink_bytes self }
    {
        self.bytes
    }
}

impl Sink for MemSink {
    ghost contents = { λ sink. Some sink.bytes.items };

    ghost faults = { λ sink. sink.faults.value };

    fn write(&mut self, bytes: &[u8]) -> Result<(), DeviceFailed> {
        self.calls = self.calls.saturating_add(1);
        if self.fail_at == Some(self.calls) || self.bytes.extend_from_slice(bytes).is_err() {
            return Err(self.faults.failed());
        }
        Ok(())
    }
}
