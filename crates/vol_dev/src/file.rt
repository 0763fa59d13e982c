// The real devices, which are the trusted edge. They tell nothing of what they hold, and count each
// failure. One whose file didn't open fails each call.
ghost use Rattle.std.specs.Prelude.{◌≡◌, ◌≤◌, length, drop, None, IfSome};

use crate::count::FaultCount;
use crate::pieces::copy_front;
use crate::{DeviceFailed, LogFile, LogStop, Sink, Source, Volume};
use pg_base::{PAGE_SIZE, Page, PageNo};
use spec_log::LONGEST_LOG;
use std::fs::OpenOptions;
use std::io::{Read, Seek, SeekFrom, Write};
use std::rt::Files;

// The most bytes that a source reads at a time.
const PIECE: usize = 4096;

/// A data file of the system.
#[derive(Drop)]
pub struct FileVolume<F: Read + Write + Seek + Drop> {
    file: Option<F>,
    faults: FaultCount,
}

impl<F: Read + Write + Seek + Drop> FileVolume<F> {
    /// The file of that path, which must be there. Where it may only be read, each write fails.
    pub fn at<R: Files<File = F>>(rt: &R, path: &str) -> FileVolume<F> {
        let file = match OpenOptions::new().read(true).write(true).open(rt, path) {
            Ok(file) => Some(file),
            Err(_) => OpenOptions::new().read(true).open(rt, path).ok(),
        };
        FileVolume {
            file,
            faults: FaultCount::ZERO,
        }
    }
}

impl<F: Read + Write + Seek + Drop> Volume for FileVolume<F> {
    ghost contents = { λ _. None };

    ghost faults = { λ volume. volume.faults.value };

    fn size(&mut self) -> Result<u64, DeviceFailed> {
        match size_of_file(&mut self.file) {
            Some(size) => Ok(size),
            None => Err(self.faults.failed()),
        }
    }

    fn read(&mut self, p: PageNo, into: &mut Page) -> Result<(), DeviceFailed> {
        match read_at(&mut self.file, place_of(p), &mut into.bytes) {
            Some(()) => Ok(()),
            None => Err(self.faults.failed()),
        }
    }

    fn write(&mut self, p: PageNo, from: &Page) -> Result<(), DeviceFailed> {
        match write_at(&mut self.file, place_of(p), &from.bytes) {
            Some(()) => Ok(()),
            None => Err(self.faults.failed()),
        }
    }
}

/// A log file of the system.
#[derive(Drop)]
pub struct FileLog<F: Read + Write + Seek + Drop> {
    file: Option<F>,
    faults: FaultCount,
}

impl<F: Read + Write + Seek + Drop> FileLog<F> {
    /// The file of that path. Where there is none, an empty one is made.
    pub fn at<R: Files<File = F>>(rt: &R, path: &str) -> FileLog<F> {
        FileLog {
            file: OpenOptions::new()
                .read(true)
                .append(true)
                .create(true)
                .open(rt, path)
                .ok(),
            faults: FaultCount::ZERO,
        }
    }
}

impl<F: Read + Write + Seek + Drop> LogFile for FileLog<F> {
    ghost contents = { λ _. None };

    ghost faults = { λ log. log.faults.value };

    fn read_all(&mut self, into: &mut Vec<u8>) -> Result<(), LogStop> {
        let Some(size) = size_of_file(&mut self.file) else {
            return Err(self.faults.failed().into());
        };
        if size > LONGEST_LOG {
            return Err(LogStop::TooLong);
        }
        let mut bytes = vec![in *into.allocator(); 0; size as usize]?;
        let Some(()) = read_at(&mut self.file, 0, &mut bytes) else {
            return Err(self.faults.failed().into());
        };
        *into = bytes;
        Ok(())
    }

    fn append(&mut self, bytes: &[u8]) -> Result<(), DeviceFailed> {
        match write_all(&mut self.file, bytes) {
            Some(()) => Ok(()),
            None => Err(self.faults.failed()),
        }
    }
}

/// A script or a schedule that stands in a file of the system.
#[derive(Drop)]
pub struct FileSource<F: Read + Drop> {
    file: Option<F>,
    faults: FaultCount,
}

impl<F: Read + Drop> FileSource<F> {
    /// The file of that path, which must be there.
    pub fn at<R: Files<File = F>>(rt: &R, path: &str) -> FileSource<F> {
        FileSource {
            file: OpenOptions::new().read(true).open(rt, path).ok(),
            faults: FaultCount::ZERO,
        }
    }
}

impl<F: Read + Drop> Source for FileSource<F> {
    ghost left = { λ _. None };

    ghost faults = { λ source. source.faults.value };

    fn read(&mut self, into: &mut [u8]) -> Result<usize, DeviceFailed> {
        match read_piece(&mut self.file, into) {
            Some(count) => Ok(count),
            None => Err(self.faults.failed()),
        }
    }
}

/// Standard output.
#[derive(Drop)]
pub struct StdoutSink<P: Print + Drop> {
    out: P,
    faults: FaultCount,
}

impl<P: Print + Drop> StdoutSink<P> {
    /// The output of that handle.
    pub fn new(out: P) -> StdoutSink<P> {
        StdoutSink {
            out,
            faults: FaultCount::ZERO,
        }
    }
}

impl<P: Print + Drop> Sink for StdoutSink<P> {
    ghost contents = { λ _. None };

    ghost faults = { λ sink. sink.faults.value };

    fn write(&mut self, bytes: &[u8]) -> Result<(), DeviceFailed> {
        match self.out.write_all(bytes) {
            Ok(()) => Ok(()),
            Err(_) => Err(self.faults.failed()),
        }
    }
}

// The byte of the file at which a page begins.
fn place_of(p: PageNo) -> u64 {
    PAGE_SIZE as u64 * u64::from(p.0)
}

fn size_of_file<F: Seek>(file: &mut Option<F>) -> Option<u64> {
    file.as_mut()?.seek(SeekFrom::End(0)).ok()
}

fn read_at<F: Read + Seek>(file: &mut Option<F>, place: u64, into: &mut [u8]) -> Option<()> {
    let file = file.as_mut()?;
    file.seek(SeekFrom::Start(place)).ok()?;
    file.read_exact(into).ok()
}

fn write_at<F: Write + Seek>(file: &mut Option<F>, place: u64, bytes: &[u8]) -> Option<()> {
    let file = file.as_mut()?;
    file.seek(SeekFrom::Start(place)).ok()?;
    file.write_all(bytes).ok()
}

fn write_all<F: Write>(file: &mut Option<F>, bytes: &[u8]) -> Option<()> {
    file.as_mut()?.write_all(bytes).ok()
}

// Reads into the front of `into`, and says how many bytes. The others of `into` stay.
fn read_piece<F: Read>(file: &mut Option<F>, into: &mut [u8]) -> Option<usize>
    ensures bound { IfSome result (λ n. n ≤ length into.old) }
    ensures rest { IfSome result (λ n. drop n into.new ≡ drop n into.old) }
{
    let mut piece = [0; PIECE];
    let room = into.len().min(PIECE);
    let count = file.as_mut()?.read(&mut piece[..room]).ok()?;
    Some(copy_front(&piece[..count], into))
}
