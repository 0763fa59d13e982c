// The map pages: PFS, GAM and SGAM.
ghost use Rattle.std.specs.Prelude.{◌≡◌, ◌++◌, ◌+◌, ◌*◌, ◌/◌, ◌<◌, ◌≤◌, ℕ, Some, false, take, slice_index, unwrap_or};
ghost use Rattle.spec_file.specs.declared.page_type.TheConstants.{PFS_TYPE, GAM_TYPE, SGAM_TYPE};
ghost use Rattle.spec_file.specs.declared.pfs.PfsKind.TheVariants as kinds;
ghost use Rattle.spec_file.specs.Image.{bit, maps_start};
ghost use Rattle.spec_file.specs.Places.{HasShape, page_limit, interval_of_page};
ghost use Rattle.spec_check.specs.Pages.{kind_of_role};
ghost use Rattle.spec_make.specs.NewMaps as spec;
ghost use Rattle.spec_make.specs.NewPages.{new_header};

use crate::start::start_page;
use pg_base::{
    ExtentNo, GAM_TYPE, Geometry, MAPS_START, PFS_TYPE, Page, PageNo, Role, SGAM_TYPE, is_whole,
};
use pg_geom::{interval_pages, interval_size, is_system, pfs_span, role_of};
use pg_maps::set_bit;
use pg_pfs::{PfsKind, expected};

// What the PFS byte of a page of this role tells of in a new file.
fn kind_of(role: Role) -> PfsKind
    ensures { result ≡ unwrap_or (kind_of_role role) kinds.Unused }
{
    match role {
        Role::FileHeader | Role::Pfs | Role::Gam | Role::Sgam => PfsKind::System,
        Role::Reserved => PfsKind::Reserved,
        Role::Boot => PfsKind::Boot,
        Role::Ordinary => PfsKind::Unused,
    }
}

// The PFS byte of page q.
fn pfs_byte(g: Geometry, q: PageNo) -> u8
    requires { q.0 < page_limit g }
    ensures { result ≡ spec.new_pfs_byte g q.0 }
{
    expected(kind_of(role_of(g, q)), 0)
}

// Puts the PFS bytes of so many pages, from page `first`, behind the header.
fn fill_pfs(g: Geometry, first: u32, count: u32, into: &mut Page)
    requires span { count ≤ 8088 }
    requires inside { first + count ≤ page_limit g }
    ensures header { take maps_start into.new.bytes ≡ take maps_start into.old.bytes }
    ensures bytes { (i : ℕ) → i < count → slice_index into.new.bytes (maps_start + i) ≡ spec.new_pfs_byte g (first + i) }
    ensures behind { (i : ℕ) → count ≤ i → slice_index into.new.bytes (maps_start + i) ≡ slice_index into.old.bytes (maps_start + i) }
{
    for i in 0..count {
        into.bytes[MAPS_START + i as usize] = pfs_byte(g, PageNo(first + i));
    }
}

/// Makes page p a PFS page of a new file of so many pages.
pub(crate) fn make_pfs(g: Geometry, pages: u32, p: PageNo, into: &mut Page)
    requires shape { HasShape g pages }
    requires inside { p.0 < pages }
    ensures { into.new.bytes ≡ new_header (Some PFS_TYPE) p.0 ++ spec.pfs_content g pages p.0 }
{
    start_page(into, PFS_TYPE, p);
    let span = pfs_span(g);
    let first = span * (p.0 / span);
    fill_pfs(g, first, span.min(pages - first), into);
    is_whole(into);
}

// Whether extent e is free.
fn is_free(g: Geometry, pages: u32, e: ExtentNo) -> bool
    requires limit { pages ≤ page_limit g }
    requires fits { e.0 < 1000000 }
    ensures { result ≡ spec.is_new_free g pages e.0 }
{
    8 * e.0 < pages && e.0 != 1 && !is_system(g, e)
}

// Sets the bits of the free extents of interval m on a page whose bits are all 0.
fn fill_gam(g: Geometry, pages: u32, m: u32, into: &mut Page)
    requires limit { pages ≤ page_limit g }
    requires interval { m < 8 }
    requires zeros { (n : ℕ) → bit into.old.bytes n ≡ false }
    ensures header { (i : ℕ) → i < maps_start → slice_index into.new.bytes i ≡ slice_index into.old.bytes i }
    ensures bits { (n : ℕ) → bit into.new.bytes n ≡ spec.tells_of g (spec.is_new_free g pages) m n }
{
    let size = interval_size(g);
    for n in 0..size {
        set_bit(into, n, is_free(g, pages, ExtentNo(size * m + n)));
    }
}

/// Makes page p a GAM page of a new file of so many pages.
pub(crate) fn make_gam(g: Geometry, pages: u32, p: PageNo, into: &mut Page)
    requires shape { HasShape g pages }
    requires inside { p.0 < pages }
    ensures { into.new.bytes ≡ new_header (Some GAM_TYPE) p.0 ++ spec.map_content g (spec.is_new_free g pages) p.0 }
{
    start_page(into, GAM_TYPE, p);
    fill_gam(g, pages, p.0 / interval_pages(g), into);
    is_whole(into);
}

/// Makes page p an SGAM page of a new file.
pub(crate) fn make_sgam(g: Geometry, p: PageNo, into: &mut Page)
    requires { p.0 < page_limit g }
    ensures { into.new.bytes ≡ new_header (Some SGAM_TYPE) p.0 ++ spec.map_content g spec.is_new_mixed p.0 }
{
    start_page(into, SGAM_TYPE, p);
    set_bit(into, 1, p.0 / interval_pages(g) == 0);
    is_whole(into);
}
