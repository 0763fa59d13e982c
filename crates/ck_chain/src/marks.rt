// The extents that an object marks.
ghost use Rattle.std.specs.Prelude.{◌≡◌, ◌+◌, ◌<◌, ◌≤◌, vec_len, IsTrue, ⊤};
ghost use Rattle.spec_file.specs.declared.sizes.TheConstants.{BIT_COUNT};
ghost use Rattle.spec_file.specs.declared.sizes.TheConstants.{ENTRY_COUNT};
ghost use Rattle.pg_iam.specs.Views.{bytes_of, Views};
ghost use Rattle.ck_chain.specs.Marking.{IsMarkedAs, AreMarkedAs, MarksFront};

use ck_facts::ExtentMap;
use pg_iam::IamView;
use pg_maps::with_bit;

// The extent, marked by the i-th object too.
fn with_mark(extent: ExtentMap, i: usize) -> ExtentMap
    requires { i < ENTRY_COUNT }
    ensures { IsMarkedAs i ⊤ extent result }
{
    let mut marks = extent.marks;
    marks[i / 8] = with_bit(marks[i / 8], (i % 8) as u32, true);
    ExtentMap {
        free: extent.free,
        mixed: extent.mixed,
        marks,
    }
}

fn mark_if(extents: &mut Vec<ExtentMap>, e: usize, i: usize, marked: bool)
    requires object { i < ENTRY_COUNT }
    requires inside { e < vec_len extents.old }
    ensures marked { AreMarkedAs i (λ k. IsTrue marked × (k ≡ e)) extents.old.items extents.new.items }
    ensures size { vec_len extents.new ≡ vec_len extents.old }
{
    if !marked {
        return;
    }
    extents[e] = with_mark(extents[e], i);
}

/// Marks for the i-th object the first `count` extents from `start` that the page marks.
pub fn mark_extents(
    extents: &mut Vec<ExtentMap>,
    i: usize,
    iam: &IamView<'_>,
    start: usize,
    count: usize,
)
    requires object { i < ENTRY_COUNT }
    requires view { Views (bytes_of iam.now) iam.now }
    requires bits { count ≤ BIT_COUNT }
    requires inside { start + count ≤ vec_len extents.old }
    ensures marked { AreMarkedAs i (MarksFront (bytes_of iam.now) start count) extents.old.items extents.new.items }
    ensures size { vec_len extents.new ≡ vec_len extents.old }
{
    for n in 0..count {
        mark_if(extents, start + n, i, iam.marks(n as u32));
    }
}
