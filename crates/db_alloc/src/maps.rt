// The pages of maps, read under no resource of theirs, and what they tell of extents and pages.
ghost use Rattle.std.specs.Prelude.{◌≡◌, ◌*◌, ◌<◌, ◌/◌, ℕ, List, true, IsTrue, IfSome, OnOk, None, Contains};
ghost use Rattle.std.specs.Option.{option_map};
ghost use Rattle.spec_file.specs.declared.page_type.TheConstants as types;
ghost use Rattle.spec_file.specs.Places.{gam_place, sgam_place, pfs_page};
ghost use Rattle.spec_file.specs.Roles.{is_ordinary, is_system_place};
ghost use Rattle.spec_words.specs.Words.{give};
ghost use Rattle.spec_alloc.specs.Search as spec;
ghost use Rattle.spec_alloc.specs.SinglePages.{spare_page};
ghost use Rattle.spec_alloc.specs.Freeing as freeing;
ghost use Rattle.db_locks.specs.Does.{Does, DoesAfter, Stays};
ghost use Rattle.db_alloc.specs.Maps.{IsMap, MapTells, IsOwnable};

use db_locks::{PageStop, PlanPages};
use pg_base::{
    ExtentNo, GAM_TYPE, Geometry, PFS_TYPE, Page, PageNo, Resource, SGAM_TYPE, is_page_of, is_whole,
};
use pg_geom::{gam_of, is_ordinary, pfs_of, sgam_of};
use pg_pfs::is_allocated;

// Reads page p of the maps, under a resource that nobody else holds.
fn read_map<P: PlanPages>(
    v: &mut P,
    p: PageNo,
    page_type: u8,
    own: Resource,
    into: &mut Page,
) -> Result<(), PageStop>
    requires inside { p.0 < (P.state v.old).view.shape.pages }
    requires map { is_system_place (P.state v.old).view.shape.geometry p.0 ≡ true }
    requires own { (P.state v.old).view.other own ≡ None }
    ensures does { Does (P.state v.old) (P.state v.new) (spec.map_read page_type p.0) result }
    ensures good { OnOk result (IsTrue (P.state v.old).told → IsMap (P.state v.old).view page_type p.0) }
    ensures told { OnOk result (IsTrue (P.state v.old).told → MapTells (P.state v.old).view p.0 into.new.bytes) }
    ensures view { (P.state v.new).view ≡ (P.state v.old).view }
{
    v.look(p, own, into)?;
    if !is_page_of(into, page_type, p) {
        return Err(PageStop::Bad(p));
    }
    Ok(())
}

/// Reads the GAM page that speaks of an extent, under a resource that nobody else holds.
pub(crate) fn read_gam<P: PlanPages>(
    v: &mut P,
    geometry: Geometry,
    e: ExtentNo,
    own: Resource,
    into: &mut Page,
) -> Result<(), PageStop>
    requires geometry { geometry ≡ (P.state v.old).view.shape.geometry }
    requires inside { e.0 < (P.state v.old).view.shape.pages / 8 }
    requires own { (P.state v.old).view.other own ≡ None }
    ensures does { Does (P.state v.old) (P.state v.new) (spec.gam_read (P.state v.old).view.shape e.0) result }
    ensures good { OnOk result (IsTrue (P.state v.old).told → IsMap (P.state v.old).view types.GAM_TYPE (gam_place (P.state v.old).view.shape.geometry e.0).page) }
    ensures told { OnOk result (IsTrue (P.state v.old).told → MapTells (P.state v.old).view (gam_place (P.state v.old).view.shape.geometry e.0).page into.new.bytes) }
    ensures view { (P.state v.new).view ≡ (P.state v.old).view }
{
    let (page, _at) = gam_of(geometry, e);
    read_map(v, page, GAM_TYPE, own, into)
}

/// Reads the SGAM page that speaks of an extent, as `read_gam` does its GAM page.
pub(crate) fn read_sgam<P: PlanPages>(
    v: &mut P,
    geometry: Geometry,
    e: ExtentNo,
    own: Resource,
    into: &mut Page,
) -> Result<(), PageStop>
    requires geometry { geometry ≡ (P.state v.old).view.shape.geometry }
    requires inside { e.0 < (P.state v.old).view.shape.pages / 8 }
    requires own { (P.state v.old).view.other own ≡ None }
    ensures does { Does (P.state v.old) (P.state v.new) (spec.sgam_read (P.state v.old).view.shape e.0) result }
    ensures good { OnOk result (IsTrue (P.state v.old).told → IsMap (P.state v.old).view types.SGAM_TYPE (sgam_place (P.state v.old).view.shape.geometry e.0).page) }
    ensures told { OnOk result (IsTrue (P.state v.old).told → MapTells (P.state v.old).view (sgam_place (P.state v.old).view.shape.geometry e.0).page into.new.bytes) }
    ensures view { (P.state v.new).view ≡ (P.state v.old).view }
{
    let (page, _at) = sgam_of(geometry, e);
    read_map(v, page, SGAM_TYPE, own, into)
}

/// Reads the PFS page that speaks of page p, under a resource that nobody else holds.
pub(crate) fn read_pfs<P: PlanPages>(
    v: &mut P,
    geometry: Geometry,
    p: PageNo,
    own: Resource,
    into: &mut Page,
) -> Result<(), PageStop>
    requires geometry { geometry ≡ (P.state v.old).view.shape.geometry }
    requires inside { p.0 < (P.state v.old).view.shape.pages }
    requires own { (P.state v.old).view.other own ≡ None }
    ensures does { Does (P.state v.old) (P.state v.new) (spec.pfs_read (P.state v.old).view.shape p.0) result }
    ensures told { OnOk result (IsTrue (P.state v.old).told → MapTells (P.state v.old).view (pfs_page (P.state v.old).view.shape.geometry p.0) into.new.bytes) }
    ensures view { (P.state v.new).view ≡ (P.state v.old).view }
{
    let (page, _at) = pfs_of(geometry, p);
    read_map(v, page, PFS_TYPE, own, into)
}

/// Reads the PFS page that speaks of page p once more, which the statement has reached.
pub(crate) fn reread_pfs<P: PlanPages>(
    v: &mut P,
    geometry: Geometry,
    p: PageNo,
    own: Resource,
    into: &mut Page,
) -> Result<(), PageStop>
    requires geometry { geometry ≡ (P.state v.old).view.shape.geometry }
    requires inside { p.0 < (P.state v.old).view.shape.pages }
    requires own { (P.state v.old).view.other own ≡ None }
    ensures does { (looked : List ℕ) → (IsTrue (P.state v.old).told → Contains looked (pfs_page (P.state v.old).view.shape.geometry p.0)) → DoesAfter looked (P.state v.old) (P.state v.new) (give tt) result }
    ensures told { OnOk result (IsTrue (P.state v.old).told → MapTells (P.state v.old).view (pfs_page (P.state v.old).view.shape.geometry p.0) into.new.bytes) }
    ensures stays { Stays (P.state v.old) (P.state v.new) }
    ensures view { (P.state v.new).view ≡ (P.state v.old).view }
{
    let (page, _at) = pfs_of(geometry, p);
    v.look(page, own, into)?;
    Ok(())
}

/// Whether another transaction holds a resource.
pub(crate) fn is_held<P: PlanPages>(v: &P, r: Resource) -> bool
    ensures { result ≡ spec.is_held (P.state v.now).view r }
{
    v.holder(r).is_some()
}

/// Whether page p counts as allocated, by its PFS page, which was read.
pub(crate) fn counts_as_allocated<P: PlanPages>(
    v: &P,
    geometry: Geometry,
    p: PageNo,
    pfs: &Page,
) -> bool
    requires geometry { geometry ≡ (P.state v.now).view.shape.geometry }
    requires inside { p.0 < (P.state v.now).view.shape.pages }
    requires read { IsTrue (P.state v.now).told → MapTells (P.state v.now).view (pfs_page (P.state v.now).view.shape.geometry p.0) pfs.now.bytes }
    ensures { IsTrue (P.state v.now).told → result ≡ spec.counts_as_allocated (P.state v.now).view.shape (P.state v.now).view p.0 }
{
    let (_page, at) = pfs_of(geometry, p);
    is_whole(pfs);
    is_allocated(pfs.bytes[at as usize]) || is_held(v, Resource::Byte(p))
}

/// Whether page p can be had, by its PFS page, which was read.
pub(crate) fn is_spare<P: PlanPages>(v: &P, geometry: Geometry, p: PageNo, pfs: &Page) -> bool
    requires geometry { geometry ≡ (P.state v.now).view.shape.geometry }
    requires inside { p.0 < (P.state v.now).view.shape.pages }
    requires read { IsTrue (P.state v.now).told → MapTells (P.state v.now).view (pfs_page (P.state v.now).view.shape.geometry p.0) pfs.now.bytes }
    ensures spare { IsTrue (P.state v.now).told → result ≡ spec.is_spare (P.state v.now).view.shape (P.state v.now).view p.0 }
    ensures ordinary { IsTrue result → is_ordinary (P.state v.now).view.shape.geometry p.0 ≡ true }
{
    is_ordinary(geometry, p) && !counts_as_allocated(v, geometry, p, pfs)
}

/// The lowest page of an extent that can be had, by its PFS page, which was read.
pub(crate) fn spare_page<P: PlanPages>(
    v: &P,
    geometry: Geometry,
    e: ExtentNo,
    pfs: &Page,
) -> Option<PageNo>
    requires geometry { geometry ≡ (P.state v.now).view.shape.geometry }
    requires inside { e.0 < (P.state v.now).view.shape.pages / 8 }
    requires read { IsTrue (P.state v.now).told → MapTells (P.state v.now).view (pfs_page (P.state v.now).view.shape.geometry (8 * e.0)) pfs.now.bytes }
    ensures ownable { IfSome result (λ p. IsOwnable (P.state v.now).view.shape p.0) }
    ensures page { IsTrue (P.state v.now).told → option_map (λ p. p.0) result ≡ spare_page (P.state v.now).view.shape (P.state v.now).view e.0 }
{
    for i in 0..8 {
        let p = PageNo(8 * e.0 + i);
        if is_spare(v, geometry, p, pfs) {
            return Some(p);
        }
    }
    None
}

/// Whether some page of an extent counts as allocated, by its PFS page, which was read.
pub(crate) fn is_in_use<P: PlanPages>(v: &P, geometry: Geometry, e: ExtentNo, pfs: &Page) -> bool
    requires geometry { geometry ≡ (P.state v.now).view.shape.geometry }
    requires inside { e.0 < (P.state v.now).view.shape.pages / 8 }
    requires read { IsTrue (P.state v.now).told → MapTells (P.state v.now).view (pfs_page (P.state v.now).view.shape.geometry (8 * e.0)) pfs.now.bytes }
    ensures { IsTrue (P.state v.now).told → result ≡ freeing.is_in_use (P.state v.now).view.shape e.0 (P.state v.now).view }
{
    for i in 0..8 {
        if counts_as_allocated(v, geometry, PageNo(8 * e.0 + i), pfs) {
            return true;
        }
    }
    false
}
