ghost use Rattle.std.specs.Prelude.{◌≡◌, ◌*◌, ◌<◌};
ghost use Rattle.spec_file.specs.Places as places;
ghost use Rattle.spec_file.specs.Roles as spec;

use crate::places::{gam_page, pfs_page, sgam_page};
use crate::spans::interval_pages;
use pg_base::{ExtentNo, Geometry, PageNo, Role};

/// What a page is for.
pub fn role_of(g: Geometry, p: PageNo) -> Role
    requires { p.0 < places.page_limit g }
    ensures { result ≡ spec.role_of g p.0 }
{
    let p = p.0;
    if p == 0 {
        Role::FileHeader
    } else if is_pfs_page(g, p) {
        Role::Pfs
    } else if is_gam_page(g, p) {
        Role::Gam
    } else if is_sgam_page(g, p) {
        Role::Sgam
    } else if p == 9 {
        Role::Boot
    } else if is_system(g, ExtentNo(p / 8)) {
        Role::Reserved
    } else {
        Role::Ordinary
    }
}

/// Whether an object may own page p, by its number.
pub fn is_ordinary(g: Geometry, p: PageNo) -> bool
    requires { p.0 < places.page_limit g }
    ensures { result ≡ spec.is_ordinary g p.0 }
{
    role_of(g, p).is_for_objects()
}

/// Whether the number is that of a page of a file of so many pages; 0 stands for none.
pub fn is_inside(pages: u32, p: PageNo) -> bool
    ensures { result ≡ places.is_inside pages p.0 }
{
    p.0 != 0 && p.0 < pages
}

/// Whether an extent holds page 0 or a PFS, GAM or SGAM page.
pub fn is_system(g: Geometry, e: ExtentNo) -> bool
    requires { 8 * e.0 < places.page_limit g }
    ensures { result ≡ spec.is_system_extent g e.0 }
{
    let first = 8 * e.0;
    (first..first + 8).any(|p| p == 0 || is_system_place(g, p))
}

fn is_system_place(g: Geometry, p: u32) -> bool
    requires { p < places.page_limit g }
    ensures { result ≡ spec.is_system_place g p }
{
    is_pfs_page(g, p) || is_gam_page(g, p) || is_sgam_page(g, p)
}

fn is_pfs_page(g: Geometry, p: u32) -> bool
    ensures { result ≡ spec.is_pfs_page g p }
{
    p == pfs_page(g, p)
}

fn is_gam_page(g: Geometry, p: u32) -> bool
    requires { p < places.page_limit g }
    ensures { result ≡ spec.is_gam_page g p }
{
    p == gam_page(g, p / interval_pages(g))
}

fn is_sgam_page(g: Geometry, p: u32) -> bool
    requires { p < places.page_limit g }
    ensures { result ≡ spec.is_sgam_page g p }
{
    p == sgam_page(g, p / interval_pages(g))
}
