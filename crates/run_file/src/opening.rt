// The file of a run: its tests, and its pages in memory.
ghost use Rattle.std.specs.Prelude.{◌≡◌, ◌*◌, ◌≤◌, IsTrue, IfOk, IfErr, IfSome, IsErrOf, None};
ghost use Rattle.std.specs.Option.{ForSome};
ghost use Rattle.spec_file.specs.Image.{page_at};
ghost use Rattle.spec_file.specs.FileForm.{size_passes};
ghost use Rattle.vol_dev.specs.Files.{ReadsFile};
ghost use Rattle.spec_start.specs.Files.{AreAllPages, IsRunImage, PassesTests, opening_fault};
ghost use Rattle.run_file.specs.Opening.{FileFault, HasPages, IsLater};

use crate::clustered::has_clustered_table;
use crate::first_page::{passes_size, tested_geometry};
use crate::why::FileStop;
use pg_base::{NoMemory, PAGE_SIZE, Page, PageNo, ReadStop};
use spec_start::FileWhy;
use std::alloc::Global;
use vol_dev::Volume;
use vol_pool::Frames;

/// Page 0 of a file of so many pages.
fn first_page<V: Volume>(alloc: Global, volume: &mut V, pages: u32) -> Result<Box<Page>, FileStop>
    requires low { 16 ≤ pages }
    requires pages { ForSome (V.contents volume.old) (HasPages pages) }
    ensures page { IfOk result (λ first. IfSome (V.contents volume.old) (λ bytes. first.value.bytes ≡ page_at bytes 0)) }
    ensures fault { FileFault (V.contents volume.old) result }
    ensures reads { ReadsFile V.Volume volume.old volume.new (IsErrOf result FileStop.Failed) }
{
    let Ok(mut first) = Page::zeroed(alloc) else {
        return Err(FileStop::NoMemory);
    };
    match volume.read(PageNo(0), &mut first) {
        Ok(()) => Ok(first),
        Err(_) => Err(FileStop::Failed),
    }
}

/// Page 0 of a file of so many pages, where it passes its tests. No other page is read.
fn tested_first<V: Volume>(alloc: Global, volume: &mut V, pages: u32) -> Result<Box<Page>, FileStop>
    requires low { 16 ≤ pages }
    requires pages { ForSome (V.contents volume.old) (HasPages pages) }
    ensures passes { IfOk result (λ first. opening_fault pages first.value.bytes ≡ None) }
    ensures page { IfOk result (λ first. IfSome (V.contents volume.old) (λ bytes. first.value.bytes ≡ page_at bytes 0)) }
    ensures fault { FileFault (V.contents volume.old) result }
    ensures reads { ReadsFile V.Volume volume.old volume.new (IsErrOf result FileStop.Failed) }
{
    let first = match first_page(alloc, volume, pages) {
        Ok(first) => first,
        Err(stop) => return Err(stop),
    };
    match tested_geometry(&first, pages) {
        Ok(_) => Ok(first),
        Err(why) => Err(FileStop::Refused(why)),
    }
}

/// All pages of a file, once its page 0 has passed.
fn pages_in_memory<V: Volume>(
    alloc: Global,
    first: Box<Page>,
    volume: &mut V,
    pages: u32,
) -> Result<Frames, FileStop>
    requires passes { opening_fault pages first.value.bytes ≡ None }
    requires size { IsTrue (size_passes (PAGE_SIZE * pages)) }
    requires page { IfSome (V.contents volume.old) (λ bytes. first.value.bytes ≡ page_at bytes 0) }
    requires pages { ForSome (V.contents volume.old) (HasPages pages) }
    ensures tested { IfOk result PassesTests }
    ensures told { IfOk result (λ frames. IfSome (V.contents volume.old) (AreAllPages frames)) }
    ensures fault { FileFault (V.contents volume.old) result }
    ensures reads { ReadsFile V.Volume volume.old volume.new (IsErrOf result FileStop.Failed) }
{
    match Frames::read_behind(alloc, first, volume, pages) {
        Ok(frames) => Ok(frames),
        Err(ReadStop::NoMemory) => Err(FileStop::NoMemory),
        Err(ReadStop::Fault(_)) => Err(FileStop::Failed),
        Err(ReadStop::Ended) => unreachable!(),
    }
}

/// The pages of a file that passes its tests, where its catalog has no clustered table.
fn taken(alloc: Global, frames: Frames) -> Result<Frames, FileStop>
    requires { PassesTests frames }
    ensures run { IfOk result IsRunImage }
    ensures same { IfOk result (λ taken. taken ≡ frames) }
    ensures fault { IfErr result (IsLater frames) }
{
    match has_clustered_table(alloc, frames.page(9)) {
        Ok(false) => Ok(frames),
        Ok(true) => Err(FileStop::Refused(FileWhy::Later)),
        Err(NoMemory) => Err(FileStop::NoMemory),
    }
}

/// The pages of a file that passes its tests, unless page 9 passes its own and its catalog has a clustered table.
/// No page is read before the size has passed, and none but page 0 before that has.
pub fn open_file<V: Volume>(alloc: Global, volume: &mut V) -> Result<Frames, FileStop>
    ensures run { IfOk result IsRunImage }
    ensures told { IfOk result (λ frames. IfSome (V.contents volume.old) (AreAllPages frames)) }
    ensures fault { FileFault (V.contents volume.old) result }
    ensures reads { ReadsFile V.Volume volume.old volume.new (IsErrOf result FileStop.Failed) }
{
    let Ok(size) = volume.size() else {
        return Err(FileStop::Failed);
    };
    if !passes_size(size) {
        return Err(FileStop::Refused(FileWhy::Size));
    }
    let pages = (size / PAGE_SIZE as u64) as u32;
    let first = match tested_first(alloc, volume, pages) {
        Ok(first) => first,
        Err(stop) => return Err(stop),
    };
    let frames = match pages_in_memory(alloc, first, volume, pages) {
        Ok(frames) => frames,
        Err(stop) => return Err(stop),
    };
    taken(alloc, frames)
}
