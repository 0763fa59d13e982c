//! That the bytes of pages are below 256, which their type says: the call here does nothing.
ghost use Rattle.spec_run.specs.OfBytes.{HasPagesOfBytes};

use pg_base::is_whole;
use vol_pool::Frames;

/// The bytes of all pages.
pub fn are_of_bytes(frames: &Frames)
    ensures { HasPagesOfBytes frames.now }
{
    for p in 0..frames.count() {
        is_whole(frames.page(p));
    }
}
