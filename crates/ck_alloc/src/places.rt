// Where the system places of a file stand, and how many it has.
ghost use Rattle.std.specs.Prelude.{◌≡◌, ◌*◌, ◌<◌};
ghost use Rattle.spec_file.specs.Places.{page_limit, HasShape};
ghost use Rattle.ck_alloc.specs.SystemPlaces as spec;

use pg_base::{ExtentNo, Geometry, PageNo};
use pg_geom::{gam_of, interval_pages, interval_size, pfs_of, pfs_span, sgam_of};

/// The kinds of system places.
#[derive(Clone, Copy)]
pub enum SystemKind {
    Pfs,
    Gam,
    Sgam,
}

/// How many pages one system place of this kind speaks of.
pub fn span_of(kind: SystemKind, g: Geometry) -> u32
    ensures { result ≡ spec.span_of kind g }
{
    match kind {
        SystemKind::Pfs => pfs_span(g),
        SystemKind::Gam | SystemKind::Sgam => interval_pages(g),
    }
}

// How many values one system place of this kind holds.
fn size_of(kind: SystemKind, g: Geometry) -> u32
    ensures { result ≡ spec.size_of kind g }
{
    match kind {
        SystemKind::Pfs => pfs_span(g),
        SystemKind::Gam | SystemKind::Sgam => interval_size(g),
    }
}

fn value_count(kind: SystemKind, pages: u32) -> u32
    ensures { result ≡ spec.value_count kind pages }
{
    match kind {
        SystemKind::Pfs => pages,
        SystemKind::Gam | SystemKind::Sgam => pages / 8,
    }
}

/// How many values of the k-th system place of this kind are those of the file.
pub fn rest_of(kind: SystemKind, g: Geometry, pages: u32, k: u32) -> u32
    requires shape { HasShape g pages }
    requires below { k < spec.place_count kind g pages }
    ensures { result ≡ spec.rest_of kind g pages k }
{
    let size = size_of(kind, g);
    (value_count(kind, pages) - size * k).min(size)
}

/// The k-th system place of this kind, from 0.
pub fn place_of(kind: SystemKind, g: Geometry, k: u32) -> PageNo
    requires { spec.span_of kind g * k < page_limit g }
    ensures { result.0 ≡ spec.place_of kind g k }
{
    match kind {
        SystemKind::Pfs => pfs_of(g, PageNo(pfs_span(g) * k)).0,
        SystemKind::Gam => gam_of(g, ExtentNo(interval_size(g) * k)).0,
        SystemKind::Sgam => sgam_of(g, ExtentNo(interval_size(g) * k)).0,
    }
}

/// How many system places of this kind a file of so many pages has.
pub fn place_count(kind: SystemKind, g: Geometry, pages: u32) -> u32
    requires { HasShape g pages }
    ensures { result ≡ spec.place_count kind g pages }
{
    let span = span_of(kind, g);
    (pages + span - 1) / span
}
