// What devices read and write, in memory and of the system, and where they fail.
use crate::made::{expect, expect_bytes, page_of};
use pg_base::{Page, PageNo};
use std::alloc::Global;
use std::fs;
use std::io::{Read, Seek, Write};
use std::process::Abort;
use std::test::Fail;
use vol_dev::{
    DeviceFailed, FailAt, FileLog, FileSource, FileVolume, LogFile, LogStop, MemLog, MemSink,
    MemSource, MemVolume, Sink, Source, StdoutSink, Volume,
};

const PAGE: usize = 8192;

// The last byte of page p, read from a file that has it.
fn last_byte<V: Volume>(volume: &mut V, p: u32, into: &mut Page) -> Result<u8, DeviceFailed> {
    let size = volume.size()?;
    if 8192 * u64::from(p) + 8192 > size {
        return Err(DeviceFailed);
    }
    volume.read(PageNo(p), into)?;
    Ok(into.bytes[8191])
}

// Writes page p of a file that has it, or ends before it.
fn write_page<V: Volume>(volume: &mut V, p: u32, from: &Page) -> Result<(), DeviceFailed> {
    let size = volume.size()?;
    if 8192 * u64::from(p) > size {
        return Err(DeviceFailed);
    }
    volume.write(PageNo(p), from)
}

// The bytes of all pieces of three that a source gives, until it has none left.
fn read_to_end<S: Source>(alloc: Global, source: &mut S) -> Result<Vec<u8>, DeviceFailed> {
    let mut text = Vec::new(alloc);
    let mut piece = [0; 3];
    for _ in 0..16 {
        let count = source.read(&mut piece)?;
        if count == 0 || text.extend_from_slice(&piece[..count]).is_err() {
            break;
        }
    }
    Ok(text)
}

fn expect_byte<V: Volume>(
    rt: &impl Abort,
    volume: &mut V,
    p: u32,
    wanted: Result<u8, DeviceFailed>,
) {
    let mut into = Page { bytes: [0; PAGE] };
    expect(rt, last_byte(volume, p, &mut into) == wanted);
}

fn expect_append<L: LogFile>(
    rt: &impl Abort,
    log: &mut L,
    bytes: &[u8],
    wanted: Result<(), DeviceFailed>,
) {
    expect(rt, log.append(bytes) == wanted);
}

fn expect_log<L: LogFile>(rt: &impl Abort, log: &mut L, read: &mut Vec<u8>, wanted: &[u8]) {
    expect(rt, log.read_all(read) == Ok(()));
    expect_bytes(rt, read, wanted);
}

fn is_unreadable<L: LogFile>(log: &mut L, read: &mut Vec<u8>) -> bool {
    log.read_all(read) == Err(LogStop::Failed)
}

fn expect_read<S: Source>(
    rt: &impl Abort,
    source: &mut S,
    into: &mut [u8],
    wanted: Result<usize, DeviceFailed>,
) {
    expect(rt, source.read(into) == wanted);
}

fn expect_write<S: Sink>(
    rt: &impl Abort,
    sink: &mut S,
    bytes: &[u8],
    wanted: Result<(), DeviceFailed>,
) {
    expect(rt, sink.write(bytes) == wanted);
}

static SECOND_READ: FailAt = FailAt {
    page: PageNo(1),
    write: false,
    nth: 2,
};

static FIRST_WRITE: FailAt = FailAt {
    page: PageNo(1),
    write: true,
    nth: 1,
};

// Two pages of sevens, of which the second fails.
fn failing_file(alloc: Global) -> Result<MemVolume, Fail> {
    let failing = vec![in alloc; SECOND_READ, FIRST_WRITE]?;
    let bytes = vec![in alloc; 7; 2 * PAGE]?;
    Ok(MemVolume::of(bytes, failing))
}

fn expect_failures(rt: &impl Abort, volume: &mut MemVolume, new: &Page) {
    expect_byte(rt, volume, 1, Ok(7));
    expect_byte(rt, volume, 1, Err(DeviceFailed));
    expect_byte(rt, volume, 1, Ok(7));
    expect(rt, write_page(volume, 1, new) == Err(DeviceFailed));
    expect(rt, write_page(volume, 1, new) == Ok(()));
    expect(rt, write_page(volume, 2, new) == Ok(()));
    expect_byte(rt, volume, 2, Ok(9));
}

fn has_two_new_pages(bytes: &[u8]) -> bool {
    bytes.len() == 3 * PAGE && bytes.iter().filter(|byte| **byte == 9).count() == 2 * PAGE
}

#[test]
fn a_data_file_in_memory_fails_where_it_was_told_to(rt: HostRuntime) -> Result<(), Fail> {
    let new = page_of(rt.alloc(), 9)?;
    let mut volume = failing_file(rt.alloc())?;
    expect_failures(&rt, &mut volume, &new);
    let bytes = volume.into_bytes();
    expect(&rt, has_two_new_pages(&bytes));
    Ok(())
}

fn log_of(
    alloc: Global,
    bytes: &[u8],
    fail_read: bool,
    fail_append: Option<u32>,
) -> Result<MemLog, Fail> {
    Ok(MemLog::of(bytes.to_vec(alloc)?, fail_read, fail_append))
}

fn expect_half_of_second(rt: &impl Abort, log: &mut MemLog, read: &mut Vec<u8>) {
    expect_append(rt, log, b"cd", Ok(()));
    expect_append(rt, log, b"efg", Err(DeviceFailed));
    expect_log(rt, log, read, b"abcdef");
}

#[test]
fn a_log_in_memory_fails_where_it_was_told_to(rt: HostRuntime) -> Result<(), Fail> {
    let mut read = b"old".to_vec(rt.alloc())?;
    let mut log = log_of(rt.alloc(), b"ab", false, Some(2))?;
    expect_half_of_second(&rt, &mut log, &mut read);
    expect_bytes(&rt, &log.into_bytes(), b"abcdef");
    Ok(())
}

fn expect_unread_log(rt: &impl Abort, log: &mut MemLog, mut read: Vec<u8>) {
    expect(rt, is_unreadable(log, &mut read));
    expect_append(rt, log, b"g", Ok(()));
}

#[test]
fn a_log_in_memory_that_is_not_read_grows(rt: HostRuntime) -> Result<(), Fail> {
    let read = b"old".to_vec(rt.alloc())?;
    let mut log = log_of(rt.alloc(), b"abcdef", true, None)?;
    expect_unread_log(&rt, &mut log, read);
    expect_bytes(&rt, &log.into_bytes(), b"abcdefg");
    Ok(())
}

// The second read fails, and the third goes on where the first ended.
fn expect_pieces(rt: &impl Abort, source: &mut MemSource) {
    let mut piece = *b"....";
    expect_read(rt, source, &mut piece[..3], Ok(3));
    expect_read(rt, source, &mut piece, Err(DeviceFailed));
    expect_read(rt, source, &mut piece, Ok(2));
    expect_bytes(rt, &piece, b"dec.");
    expect_read(rt, source, &mut piece, Ok(0));
}

#[test]
fn a_source_in_memory_fails_at_its_call(rt: HostRuntime) -> Result<(), Fail> {
    let mut source = MemSource::of(b"abcde".to_vec(rt.alloc())?, Some(2));
    expect_pieces(&rt, &mut source);
    Ok(())
}

#[test]
fn a_source_in_memory_keeps_what_is_not_read(rt: HostRuntime) -> Result<(), Fail> {
    let mut source = MemSource::of(b"abcde".to_vec(rt.alloc())?, None);
    expect_read(&rt, &mut source, &mut [0; 1], Ok(1));
    let bytes = source.into_bytes();
    expect_bytes(&rt, &bytes, b"bcde");
    Ok(())
}

#[test]
fn an_output_in_memory_fails_at_its_call(rt: HostRuntime) {
    let mut sink = MemSink::of(rt.alloc(), Some(2));
    expect_write(&rt, &mut sink, b"ab", Ok(()));
    expect_write(&rt, &mut sink, b"cd", Err(DeviceFailed));
    expect_write(&rt, &mut sink, b"e", Ok(()));
    let bytes = sink.into_bytes();
    expect_bytes(&rt, &bytes, b"abe");
}

// A file of one page grows by a page.
fn expect_growth<F: Read + Write + Seek + Drop>(
    rt: &impl Abort,
    volume: &mut FileVolume<F>,
    new: &Page,
) {
    expect_byte(rt, volume, 0, Ok(7));
    expect(rt, write_page(volume, 1, new) == Ok(()));
    expect(rt, volume.size() == Ok(16_384));
    expect_byte(rt, volume, 1, Ok(9));
    expect_byte(rt, volume, 0, Ok(7));
}

fn expect_unread<F: Read + Write + Seek + Drop>(
    rt: &impl Abort,
    volume: &mut FileVolume<F>,
    p: u32,
) {
    let mut into = Page { bytes: [0; PAGE] };
    expect(rt, volume.read(PageNo(p), &mut into) == Err(DeviceFailed));
}

fn expect_no_file<F: Read + Write + Seek + Drop>(
    rt: &impl Abort,
    volume: &mut FileVolume<F>,
    new: &Page,
) {
    expect(rt, volume.size() == Err(DeviceFailed));
    expect_unread(rt, volume, 0);
    expect(rt, volume.write(PageNo(0), new) == Err(DeviceFailed));
}

static DATA_FILE: &'static str = "/tmp/rows_devices_data_file";

#[test]
fn a_data_file_of_the_system_is_read_and_written(rt: HostRuntime) -> Result<(), Fail> {
    let new = page_of(rt.alloc(), 9)?;
    fs::write(&rt, DATA_FILE, &[7; PAGE])?;
    let mut volume = FileVolume::at(&rt, DATA_FILE);
    expect_growth(&rt, &mut volume, &new);
    expect_unread(&rt, &mut volume, 2);
    fs::remove_file(&rt, DATA_FILE)?;
    Ok(())
}

#[test]
fn a_data_file_that_is_not_there_fails(rt: HostRuntime) -> Result<(), Fail> {
    let new = page_of(rt.alloc(), 9)?;
    let mut none = FileVolume::at(&rt, "/tmp/rows_devices_no_data_file");
    expect_no_file(&rt, &mut none, &new);
    Ok(())
}

// A new log of the system takes two pieces.
fn expect_grown_log<L: LogFile>(rt: &impl Abort, log: &mut L, read: &mut Vec<u8>) {
    expect_log(rt, log, read, b"");
    expect_append(rt, log, b"ab", Ok(()));
    expect_append(rt, log, b"cd", Ok(()));
    expect_log(rt, log, read, b"abcd");
}

#[test]
fn a_log_of_the_system_is_made_and_grows(rt: HostRuntime) -> Result<(), Fail> {
    let path = "/tmp/rows_devices_log";
    let mut read = b"old".to_vec(rt.alloc())?;
    let _ = fs::remove_file(&rt, path);
    let mut log = FileLog::at(&rt, path);
    expect_grown_log(&rt, &mut log, &mut read);
    fs::remove_file(&rt, path)?;
    Ok(())
}

fn expect_no_log<L: LogFile>(rt: &impl Abort, log: &mut L, read: &mut Vec<u8>) {
    expect(rt, is_unreadable(log, read));
    expect_append(rt, log, b"e", Err(DeviceFailed));
    expect_bytes(rt, read, b"abcd");
}

#[test]
fn a_log_that_is_not_opened_fails(rt: HostRuntime) -> Result<(), Fail> {
    let mut read = b"abcd".to_vec(rt.alloc())?;
    let mut none = FileLog::at(&rt, "");
    expect_no_log(&rt, &mut none, &mut read);
    Ok(())
}

#[test]
fn a_source_of_the_system_is_read_to_its_end(rt: HostRuntime) -> Result<(), Fail> {
    let path = "/tmp/rows_devices_source";
    fs::write(&rt, path, b"abcdefg")?;
    let mut source = FileSource::at(&rt, path);
    let text = read_to_end(rt.alloc(), &mut source)?;
    expect_bytes(&rt, &text, b"abcdefg");
    fs::remove_file(&rt, path)?;
    Ok(())
}

#[test]
fn a_source_that_is_not_opened_fails(rt: HostRuntime) {
    let mut none = FileSource::at(&rt, "");
    expect_read(&rt, &mut none, &mut [0; 3], Err(DeviceFailed));
}

#[test]
fn standard_output_takes_what_is_written(rt: HostRuntime) {
    let mut sink = StdoutSink::new(rt.stdout());
    expect_write(&rt, &mut sink, b"a line\n", Ok(()));
}
