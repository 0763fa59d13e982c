// The pages of a file in memory: read, changed, and written back.
ghost use Rattle.std.specs.Prelude.{◌≡◌, ◌<◌, None, IfOk, length};

use crate::made::{expect, page_of};
use pg_base::{Page, PageNo, ReadStop, SnapReader};
use spec_file::{Lsn, Tran};
use spec_log::{Cell, Record, Values};
use std::alloc::Global;
use std::process::Abort;
use std::test::Fail;
use vol_dev::{DeviceFailed, Volume};
use vol_pool::{Frames, FramesReader, changed_pages};

// A file that tells nothing, keeps the numbers of the pages that are written, and fails at one page.
#[derive(Drop)]
struct Untold {
    pages: Vec<Box<Page>>,
    written: Vec<u32>,
    failing: Option<u32>,
    faults: u64,
}

impl Volume for Untold {
    ghost contents = { λ _. None };

    ghost faults = { λ volume. volume.faults };

    fn size(&mut self) -> Result<u64, DeviceFailed> {
        Ok((self.pages.len() as u64).saturating_mul(8192))
    }

    fn read(&mut self, p: PageNo, into: &mut Page) -> Result<(), DeviceFailed> {
        match self.pages.get(p.0 as usize) {
            Some(page) if self.failing != Some(p.0) => {
                into.bytes = page.bytes;
                Ok(())
            }
            _ => {
                self.faults = self.faults.saturating_add(1);
                Err(DeviceFailed)
            }
        }
    }

    fn write(&mut self, p: PageNo, from: &Page) -> Result<(), DeviceFailed> {
        if self.failing == Some(p.0) || self.written.push(p.0).is_err() {
            self.faults = self.faults.saturating_add(1);
            return Err(DeviceFailed);
        }
        if let Some(page) = self.pages.get_mut(p.0 as usize) {
            page.bytes = from.bytes;
        }
        Ok(())
    }
}

// A page of ones, one of twos and one of threes.
fn three(alloc: Global, failing: Option<u32>) -> Result<Untold, Fail> {
    let mut pages = Vec::new(alloc);
    for byte in 1..4 {
        pages.push(page_of(alloc, byte)?)?;
    }
    Ok(Untold {
        pages,
        written: Vec::new(alloc),
        failing,
        faults: 0,
    })
}

// All pages of a file that fails at none of them.
fn frames_of(alloc: Global, volume: &mut Untold) -> Result<Frames, Fail>
    ensures { IfOk result (λ frames. length frames ≡ 3) }
{
    let first = page_of(alloc, 1)?;
    Ok(Frames::read_behind(alloc, first, volume, 3)?)
}

// Why the pages of three were not read, where one page fails.
fn stop_at(alloc: Global, failing: u32) -> Result<Option<ReadStop>, Fail> {
    let mut volume = three(alloc, Some(failing))?;
    let first = page_of(alloc, 1)?;
    Ok(Frames::read_behind(alloc, first, &mut volume, 3).err())
}

fn reads_threes(frames: &Frames) -> bool
    requires { length frames.now ≡ 3 }
{
    let mut into = Page { bytes: [0; 8192] };
    let mut reader = FramesReader::of(frames);
    reader.page(PageNo(2), &mut into) == Ok(()) && into.bytes[0] == 3
}

#[test]
fn all_pages_are_read(rt: HostRuntime) -> Result<(), Fail> {
    let mut volume = three(rt.alloc(), None)?;
    let frames = frames_of(rt.alloc(), &mut volume)?;
    expect(&rt, frames.copied(rt.alloc()).is_ok());
    expect(&rt, frames.page(0).bytes[8191] == 1);
    expect(&rt, reads_threes(&frames));
    Ok(())
}

#[test]
fn a_page_that_is_not_read_is_named(rt: HostRuntime) -> Result<(), Fail> {
    let stop = stop_at(rt.alloc(), 1)?;
    expect(&rt, stop == Some(ReadStop::Fault(PageNo(1))));
    expect(&rt, stop_at(rt.alloc(), 0)?.is_none());
    Ok(())
}

// Changes two bytes at the end of page 2, and bit 1 of page 0.
fn put_both(frames: &mut Frames)
    requires { length frames.old ≡ 3 }
    ensures { length frames.new ≡ 3 }
{
    frames.put(
        Cell::Bytes {
            page: PageNo(2),
            off: 8190,
        },
        &[7, 8],
    );
    frames.put(
        Cell::Bit {
            page: PageNo(0),
            n: 1,
        },
        &[1],
    );
}

fn byte_at(volume: &Untold, p: usize, at: usize) -> Option<u8>
    requires { at < 8192 }
{
    match volume.pages.get(p) {
        Some(page) => Some(page.bytes[at]),
        None => None,
    }
}

fn holds_changes(volume: &Untold) -> bool {
    byte_at(volume, 0, 96) == Some(3)
        && byte_at(volume, 1, 0) == Some(2)
        && byte_at(volume, 2, 8190) == Some(7)
        && byte_at(volume, 2, 8191) == Some(8)
}

static MARKS: [bool; 3] = [true, false, true];

// Writes pages 0 and 2 back; the numbers are those of all pages that have been written since the file was made.
fn expect_written(
    rt: &impl Abort,
    frames: &Frames,
    volume: &mut Untold,
    wanted: Result<(), DeviceFailed>,
    numbers: &[u32],
)
    requires { length frames.now ≡ 3 }
{
    expect(rt, frames.write_back(volume, &MARKS) == wanted);
    expect(rt, volume.written.as_slice() == numbers);
}

#[test]
fn changed_pages_are_written_in_rising_order(rt: HostRuntime) -> Result<(), Fail> {
    let mut volume = three(rt.alloc(), None)?;
    let mut frames = frames_of(rt.alloc(), &mut volume)?;
    put_both(&mut frames);
    expect_written(&rt, &frames, &mut volume, Ok(()), &[0, 2]);
    expect(&rt, holds_changes(&volume));
    volume.failing = Some(2);
    expect_written(&rt, &frames, &mut volume, Err(DeviceFailed), &[0, 2, 0]);
    Ok(())
}

// A change of a bit of page 2, its undoing, and a commit.
fn records(alloc: Global) -> Result<Vec<Record>, Fail> {
    let change = Record::Change {
        tran: Tran(1),
        cell: Cell::Bit {
            page: PageNo(2),
            n: 5,
        },
        before: Values::new(alloc),
        after: Values::new(alloc),
    };
    let undo = Record::Undo {
        tran: Tran(1),
        change: Lsn(1),
    };
    Ok(vec![in alloc; change, undo, Record::Commit { tran: Tran(1) }]?)
}

fn marks_page_two(alloc: Global, items: &[Record]) -> Result<bool, Fail> {
    let marks = changed_pages(alloc, items, 4)?;
    Ok(marks.as_slice() == [false, false, true, false].as_slice())
}

#[test]
fn the_changes_of_a_log_name_its_pages(rt: HostRuntime) -> Result<(), Fail> {
    let items = records(rt.alloc())?;
    expect(&rt, marks_page_two(rt.alloc(), &items)?);
    Ok(())
}
