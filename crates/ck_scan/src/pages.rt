// The pages of an extent that objects own.
ghost use Rattle.std.specs.Prelude.{◌≡◌, ℕ, ◌/◌, ◌<◌, List, [], ◌∷◌, ◌++◌, OnOk, vec_len};
ghost use Rattle.std.specs.Option.{ForSome};
ghost use Rattle.pg_base.specs.Stops.{stop_of};
ghost use Rattle.pg_base.specs.Reading.{OnlyReads};
ghost use Rattle.ck_facts.specs.Maps.{HasNoSystemErrors};
ghost use Rattle.ck_facts.specs.MapOf.{IsMapOf};
ghost use Rattle.ck_facts.specs.Owners.{IsOwnerIn};
ghost use Rattle.ck_merge.specs.Held.{roots_in, count_of};
ghost use Rattle.ck_scan.specs.Found.{AreFoundIn, AddsPage};
ghost use Rattle.ck_scan.specs.Frames.{IsFrameOf};

use crate::findings::Findings;
use crate::frame::Frame;
use ck_facts::AllocMap;
use pg_base::{ExtentNo, ObjId, PageNo, ReadStop, SnapReader};
use std::alloc::Global;

// Takes what a page shows for an object that owns it.
fn find_on_page<R: SnapReader>(
    alloc: Global,
    reader: &mut R,
    map: &AllocMap,
    owned: (PageNo, ObjId),
    frame: &mut Frame,
    found: &mut Findings,
) -> Result<(), ReadStop>
    requires count { R.pages reader.old ≡ map.now.pages }
    requires inside { owned.0.0 < map.now.pages }
    requires lines { vec_len found.old.lines ≡ vec_len map.now.objects }
    ensures adds { OnOk result (ForSome (R.image reader.old) (λ image. (e : ℕ) → IsMapOf image map.now → HasNoSystemErrors map.now
        → IsOwnerIn map.now.geometry image e owned → IsFrameOf image frame.old
        → AddsPage image map.now owned found.old found.new × IsFrameOf image frame.new)) }
    ensures lines { vec_len found.new.lines ≡ vec_len found.old.lines }
    ensures roots { roots_in found.new.parts ≡ roots_in found.old.parts }
    ensures parts { count_of found.new.parts ≡ count_of found.old.parts }
    ensures reads { OnlyReads R.SnapReader reader.old reader.new (stop_of result) }
{
    if !map.ordinary(owned.0) {
        found.add_not_ordinary(owned)?;
        return Ok(());
    }
    frame.bring(reader, owned.0)?;
    found.add_page(alloc, map, owned, &frame.page)?;
    Ok(())
}

/// Takes what the pages of an extent show for the objects that own them, whichever extents were read before.
pub fn find_in_extent<R: SnapReader>(
    alloc: Global,
    reader: &mut R,
    map: &AllocMap,
    e: u32,
    frame: &mut Frame,
    found: &mut Findings,
) -> Result<(), ReadStop>
    requires count { R.pages reader.old ≡ map.now.pages }
    requires sound { HasNoSystemErrors map.now }
    requires inside { e < map.now.pages / 8 }
    requires lines { vec_len found.old.lines ≡ vec_len map.now.objects }
    ensures found { OnOk result (ForSome (R.image reader.old) (λ image. (others : List ℕ) → IsMapOf image map.now → IsFrameOf image frame.old
        → AreFoundIn image map.now others found.old → AreFoundIn image map.now (others ++ e ∷ []) found.new × IsFrameOf image frame.new)) }
    ensures lines { vec_len found.new.lines ≡ vec_len found.old.lines }
    ensures roots { roots_in found.new.parts ≡ roots_in found.old.parts }
    ensures parts { count_of found.new.parts ≡ count_of found.old.parts }
    ensures reads { OnlyReads R.SnapReader reader.old reader.new (stop_of result) }
{
    let pages = map.pages_in(alloc, ExtentNo(e))?;
    for owned in &pages {
        find_on_page(alloc, reader, map, *owned, frame, found)?;
    }
    Ok(())
}
