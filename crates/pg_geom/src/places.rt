ghost use Rattle.std.specs.Prelude.{◌≡◌, ◌+◌, ◌*◌, ◌/◌, ◌%◌, ◌<◌};
ghost use Rattle.spec_file.specs.Places as spec;

use crate::spans::{interval_pages, interval_size, pfs_span};
use pg_base::{ExtentNo, Geometry, MAPS_START, PageNo};

/// The PFS byte of a page: the PFS page that has it, and its offset there.
pub fn pfs_of(g: Geometry, p: PageNo) -> (PageNo, u32)
    requires { p.0 < spec.page_limit g }
    ensures page { result.0.0 ≡ (spec.pfs_place g p.0).page }
    ensures at { result.1 ≡ (spec.pfs_place g p.0).at }
{
    (
        PageNo(pfs_page(g, p.0)),
        MAPS_START as u32 + p.0 % pfs_span(g),
    )
}

/// The GAM bit of an extent: the GAM page that has it, and its number there.
pub fn gam_of(g: Geometry, e: ExtentNo) -> (PageNo, u32)
    requires { 8 * e.0 < spec.page_limit g }
    ensures page { result.0.0 ≡ (spec.gam_place g e.0).page }
    ensures at { result.1 ≡ (spec.gam_place g e.0).at }
{
    let size = interval_size(g);
    (PageNo(gam_page(g, e.0 / size)), e.0 % size)
}

/// The SGAM bit of an extent: the SGAM page that has it, and its number there.
pub fn sgam_of(g: Geometry, e: ExtentNo) -> (PageNo, u32)
    requires { 8 * e.0 < spec.page_limit g }
    ensures page { result.0.0 ≡ (spec.sgam_place g e.0).page }
    ensures at { result.1 ≡ (spec.sgam_place g e.0).at }
{
    let size = interval_size(g);
    (PageNo(sgam_page(g, e.0 / size)), e.0 % size)
}

/// The interval of an extent, from 0.
pub fn interval_of(g: Geometry, e: ExtentNo) -> u32
    requires { 8 * e.0 < spec.page_limit g }
    ensures { result ≡ e.0 / spec.interval_size g }
{
    e.0 / interval_size(g)
}

// The PFS page that speaks of page p.
pub(crate) fn pfs_page(g: Geometry, p: u32) -> u32
    ensures { result ≡ spec.pfs_page g p }
{
    let span = pfs_span(g);
    match p / span {
        0 => 1,
        k => span * k,
    }
}

// The GAM page of interval m.
pub(crate) fn gam_page(g: Geometry, m: u32) -> u32
    requires { m < 8 }
    ensures { result ≡ spec.gam_page g m }
{
    match m {
        0 => 2,
        _ => interval_pages(g) * m,
    }
}

// The SGAM page of interval m.
pub(crate) fn sgam_page(g: Geometry, m: u32) -> u32
    requires { m < 8 }
    ensures { result ≡ spec.sgam_page g m }
{
    gam_page(g, m) + 1
}
