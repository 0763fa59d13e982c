// The pages of a volume, read and written back.
ghost use Rattle.std.specs.Prelude.{◌≡◌, ◌+◌, ◌*◌, ◌<◌, ◌≤◌, ◌^◌, ◌∷◌, ◌++◌, [], true, false, length, slice_set, IfOk, IsErr, OnOk, OnErr, IfSome};
ghost use Rattle.std.specs.Option.{ForSome};
ghost use Rattle.pg_base.specs.Faults.{Counts};
ghost use Rattle.pg_base.specs.Stops.{stop_of};
ghost use Rattle.spec_file.specs.Image.{page, page_at, pages_of};
ghost use Rattle.spec_file.specs.declared.sizes.TheConstants.{PAGE_SIZE};
ghost use Rattle.spec_log.specs.Cells.{HasWholePages};
ghost use Rattle.vol_dev.specs.Devices.{HasPage};
ghost use Rattle.vol_pool.specs.Reading.{ReadsPages};
ghost use Rattle.vol_pool.specs.Writing.{Leaves, Spoils, SameUnmarked, StopsWriting};

use crate::Frames;
use pg_base::{Page, PageNo, ReadStop, is_whole};
use std::alloc::Global;
use vol_dev::{DeviceFailed, Volume};

/// Page p of a volume, in memory of its own.
fn read_page<V: Volume>(alloc: Global, volume: &mut V, p: PageNo) -> Result<Box<Page>, ReadStop>
    requires { ForSome (V.contents volume.old) (HasPage p.0) }
    ensures page { IfOk result (λ found. IfSome (V.contents volume.old) (λ bytes. found.value.bytes ≡ page_at bytes p.0)) }
    ensures long { IfOk result (λ found. length found.value.bytes ≡ PAGE_SIZE) }
    ensures reads { ReadsPages V.Volume (p.0 + 1) volume.old volume.new (stop_of result) }
{
    let mut page = Page::zeroed(alloc)?;
    match volume.read(p, &mut page) {
        Ok(()) => {
            is_whole(&page);
            Ok(page)
        }
        Err(_) => Err(ReadStop::Fault(p)),
    }
}

impl Frames {
    /// Page p of a volume, behind the pages so far.
    fn push_from<V: Volume>(
        &mut self,
        alloc: Global,
        volume: &mut V,
        p: PageNo,
    ) -> Result<(), ReadStop>
        requires { ForSome (V.contents volume.old) (HasPage p.0) }
        ensures page { OnOk result (IfSome (V.contents volume.old) (λ bytes. self.new ≡ self.old ++ page_at bytes p.0 ∷ [])) }
        ensures more { OnOk result (length self.new ≡ length self.old + 1) }
        ensures first { OnOk result (0 < length self.old → page self.new 0 ≡ page self.old 0) }
        ensures whole { OnOk result (HasWholePages self.old → HasWholePages self.new) }
        ensures reads { ReadsPages V.Volume (p.0 + 1) volume.old volume.new (stop_of result) }
    {
        let page = read_page(alloc, volume, p)?;
        self.push(page)?;
        Ok(())
    }

    /// All pages of a file of so many, whose page 0 is in memory already: it isn't read again.
    pub fn read_behind<V: Volume>(
        alloc: Global,
        first: Box<Page>,
        volume: &mut V,
        pages: u32,
    ) -> Result<Frames, ReadStop>
        requires some { 0 < pages }
        requires size { ForSome (V.contents volume.old) (λ bytes. length bytes ≡ PAGE_SIZE * pages) }
        requires first { IfSome (V.contents volume.old) (λ bytes. first.value.bytes ≡ page_at bytes 0) }
        ensures count { IfOk result (λ frames. length frames ≡ pages) }
        ensures whole { IfOk result HasWholePages }
        ensures first { IfOk result (λ frames. page frames 0 ≡ first.value.bytes) }
        ensures image { IfOk result (λ frames. IfSome (V.contents volume.old) (λ bytes. frames ≡ pages_of bytes)) }
        ensures reads { ReadsPages V.Volume pages volume.old volume.new (stop_of result) }
    {
        is_whole(&first);
        let mut frames = Frames::empty(alloc);
        frames.push(first)?;
        for p in 1..pages {
            frames.push_from(alloc, volume, PageNo(p))?;
        }
        Ok(frames)
    }
}

/// Writes a page in its place where it is marked as changed. A page that isn't stands there already.
fn write_changed<V: Volume>(
    volume: &mut V,
    p: PageNo,
    page: &Page,
    changed: bool,
) -> Result<(), DeviceFailed>
    requires fits { ForSome (V.contents volume.old) (HasPage p.0) }
    requires same { IfSome (V.contents volume.old) (λ bytes. changed ≡ false → page_at bytes p.0 ≡ page.now.bytes) }
    ensures ok { OnOk result (Leaves (λ before. slice_set before p.0 page.now.bytes) (V.contents volume.old) (V.contents volume.new)) }
    ensures err { OnErr result (changed ≡ true) }
    ensures spoiled { OnErr result (Spoils p.0 (V.contents volume.old) (V.contents volume.new)) }
    ensures faults { Counts (IsErr result) (V.faults volume.old) (V.faults volume.new) }
{
    is_whole(page);
    if !changed {
        return Ok(());
    }
    volume.write(p, page)
}

impl Frames {
    /// Writes the marked pages, in rising order. Pages that aren't marked stand in the file already.
    pub fn write_back<V: Volume>(
        &self,
        volume: &mut V,
        changed: &[bool],
    ) -> Result<(), DeviceFailed>
        requires marks { length changed.now ≡ length self.now }
        requires few { length self.now ≤ 2 ^ 32 }
        requires size { ForSome (V.contents volume.old) (λ bytes. length bytes ≡ PAGE_SIZE * length self.now) }
        requires same { IfSome (V.contents volume.old) (λ bytes. SameUnmarked changed.now self.now (pages_of bytes)) }
        ensures ok { OnOk result (Leaves (λ _. self.now) (V.contents volume.old) (V.contents volume.new)) }
        ensures err { OnErr result (StopsWriting changed.now self.now (V.contents volume.old) (V.contents volume.new)) }
        ensures faults { Counts (IsErr result) (V.faults volume.old) (V.faults volume.new) }
    {
        for (p, changed) in changed.iter().enumerate() {
            write_changed(volume, PageNo(p as u32), self.page(p), *changed)?;
        }
        Ok(())
    }
}
