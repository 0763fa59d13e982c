// The objects that mark an extent.
ghost use Rattle.std.specs.Prelude.{◌≡◌, ◌≤◌, ◌<◌, length};
ghost use Rattle.ck_facts.specs.MapOf.{ids_of};
ghost use Rattle.ck_alloc.specs.Held.{marked_ids};

use arrayvec::ArrayVec;
use ck_facts::{CatRow, ExtentMap};
use spec_file::ENTRY_COUNT;

/// Ids of objects; a catalog has no more.
pub type Markers = ArrayVec<u32, ENTRY_COUNT>;

/// The ids of the objects that mark the extent, in the order of the objects.
pub fn markers_of(objects: &[CatRow], extent: &ExtentMap) -> Markers
    requires { length objects.now ≤ ENTRY_COUNT }
    ensures { result.items ≡ marked_ids (ids_of objects.now) extent.now (length objects.now) }
{
    let mut ids = Markers::new();
    for i in 0..objects.len() {
        if extent.has_mark(i) {
            ids.push(objects[i].id.0);
        }
    }
    ids
}
