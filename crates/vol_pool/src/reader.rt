// Pages in memory, read as one image.
ghost use Rattle.std.specs.Prelude.{◌≡◌, false, length, [], Some, None};

use crate::Frames;
use pg_base::{Page, PageNo, ReadStop, SnapReader};

/// A reader of pages that stay as they are meanwhile. It never fails and never ends.
#[derive(Drop)]
pub struct FramesReader<'a> {
    pub frames: &'a Frames,
}

impl<'a> FramesReader<'a> {
    /// A reader of these pages.
    pub fn of(frames: &'a Frames) -> FramesReader<'a>
        ensures { result.frames.now ≡ frames.now }
    {
        FramesReader { frames }
    }
}

impl<'a> SnapReader for FramesReader<'a> {
    ghost pages = { λ r. length r.frames.now };

    ghost image = { λ r. Some r.frames.now };

    ghost ended = { λ _. false };

    ghost faults = { λ _. 0 };

    ghost failed = { λ _. None };

    ghost bound = { λ _. [] };

    ghost whole = { λ r image is. cc };

    fn page(&mut self, p: PageNo, into: &mut Page) -> Result<(), ReadStop> {
        into.bytes = self.frames.page(p.0 as usize).bytes;
        Ok(())
    }
}
