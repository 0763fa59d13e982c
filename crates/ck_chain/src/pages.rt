// The errors of one page of a chain.
ghost use Rattle.std.specs.Prelude.{◌≢◌, ◌⊎◌, ◌↔◌, ◌+◌, ◌*◌, ◌<◌, ◌≤◌, IsTrue, OnOk};
ghost use Rattle.spec_file.specs.Places as places;
ghost use Rattle.spec_file.specs.Iam as spec;
ghost use Rattle.ck_error.specs.Gathered.{Adds, Below};
ghost use Rattle.pg_iam.specs.Views.{bytes_of, Views};
ghost use Rattle.ck_chain.specs.Pages.{PrevDiffers, SequenceDiffers, IntervalRepeats, MarksBehind};

use crate::ends::error;
use crate::walk::Link;
use ck_error::{CheckError, push_if};
use pg_base::{Geometry, NoMemory};
use pg_geom::interval_size;
use pg_iam::IamView;

fn differ(a: u32, b: u32) -> bool
    ensures { IsTrue result ↔ (a ≢ b) }
{
    a != b
}

fn is_behind(marked: bool, extents: u32, e: u32) -> bool
    ensures { IsTrue result ↔ (IsTrue marked × (extents ≤ e)) }
{
    marked && extents <= e
}

fn note_prev(
    errors: &mut Vec<CheckError>,
    id: u32,
    link: &Link,
    iam: &IamView<'_>,
) -> Result<(), NoMemory>
    requires { Views (bytes_of iam.now) iam.now }
    ensures { OnOk result (Adds errors.old.items errors.new.items (PrevDiffers id link.now.page link.now.before (bytes_of iam.now))) }
{
    let prev = iam.prev.0;
    push_if(
        errors,
        differ(prev, link.before),
        error(8969, id, link.page, prev, 1),
    )
}

fn note_sequence(
    errors: &mut Vec<CheckError>,
    id: u32,
    link: &Link,
    iam: &IamView<'_>,
) -> Result<(), NoMemory>
    requires { Views (bytes_of iam.now) iam.now }
    ensures { OnOk result (Adds errors.old.items errors.new.items (SequenceDiffers id link.now.page link.now.count (bytes_of iam.now))) }
{
    push_if(
        errors,
        differ(iam.sequence, link.count),
        error(2577, id, link.page, 0, iam.sequence),
    )
}

fn note_interval(
    errors: &mut Vec<CheckError>,
    id: u32,
    link: &Link,
    first: u32,
) -> Result<(), NoMemory>
    ensures { OnOk result (Adds errors.old.items errors.new.items (IntervalRepeats id link.now.page first)) }
{
    push_if(
        errors,
        differ(first, 0),
        error(8947, id, link.page, first, 0),
    )
}

/// Adds what the links, the sequence and the interval of a page show. Page `first` of the chain has its
/// interval, 0 for none.
pub fn note_page(
    errors: &mut Vec<CheckError>,
    id: u32,
    link: &Link,
    first: u32,
    iam: &IamView<'_>,
) -> Result<(), NoMemory>
    requires { Views (bytes_of iam.now) iam.now }
    ensures { OnOk result (Adds errors.old.items errors.new.items
        (λ x. PrevDiffers id link.now.page link.now.before (bytes_of iam.now) x
        ⊎ (SequenceDiffers id link.now.page link.now.count (bytes_of iam.now) x ⊎ IntervalRepeats id link.now.page first x))) }
{
    note_prev(errors, id, link, iam)?;
    note_sequence(errors, id, link, iam)?;
    note_interval(errors, id, link, first)
}

fn note_mark(
    errors: &mut Vec<CheckError>,
    g: Geometry,
    extents: u32,
    id: u32,
    q: u32,
    iam: &IamView<'_>,
    n: u32,
) -> Result<(), NoMemory>
    requires view { Views (bytes_of iam.now) iam.now }
    requires interval { places.interval_size g * spec.iam_interval (bytes_of iam.now) < 65536 }
    requires inside { n < places.interval_size g }
    ensures { OnOk result (Adds errors.old.items errors.new.items (MarksBehind g extents id q (bytes_of iam.now) n)) }
{
    let e = interval_size(g) * iam.interval + n;
    push_if(
        errors,
        is_behind(iam.marks(n), extents, e),
        error(2579, id, q, 0, e),
    )
}

/// Adds the marks of extents behind the last of the file.
pub fn note_marks(
    errors: &mut Vec<CheckError>,
    g: Geometry,
    extents: u32,
    id: u32,
    q: u32,
    iam: &IamView<'_>,
) -> Result<(), NoMemory>
    requires view { Views (bytes_of iam.now) iam.now }
    requires interval { places.interval_size g * spec.iam_interval (bytes_of iam.now) < 65536 }
    ensures { OnOk result (Adds errors.old.items errors.new.items
        (Below (places.interval_size g) (MarksBehind g extents id q (bytes_of iam.now)))) }
{
    for n in 0..interval_size(g) {
        note_mark(errors, g, extents, id, q, iam, n)?;
    }
    Ok(())
}
