// Pages are given back: their PFS bytes, and the bits of extents that aren't in use any more.
ghost use Rattle.std.specs.Prelude.{◌≡◌, ◌<◌, ◌*◌, ◌/◌, ℕ, List, IsTrue, None, Contains, OnOk};
ghost use Rattle.spec_file.specs.declared.sizes.TheConstants.{BIT_COUNT};
ghost use Rattle.spec_file.specs.Places.{gam_place, sgam_place, pfs_page};
ghost use Rattle.spec_words.specs.Words.{sees};
ghost use Rattle.spec_alloc.specs.Freeing as spec;
ghost use Rattle.spec_alloc.specs.Objects as objects;
ghost use Rattle.db_locks.specs.Does.{Does, DoesAfter};

use crate::maps::{is_in_use, read_gam, read_pfs, read_sgam, reread_pfs};
use db_locks::{PageStop, PlanPages, set_gam_bit, set_pfs_byte, set_sgam_bit};
use pg_base::{ExtentNo, Geometry, Page, PageNo, Resource};

/// Whether some page of an extent counts as allocated. Its PFS page, which the statement has reached, is read
/// once more, under a resource that nobody else holds.
pub(crate) fn check_in_use<P: PlanPages>(
    v: &mut P,
    geometry: Geometry,
    e: ExtentNo,
    own: Resource,
    buffer: &mut Page,
) -> Result<bool, PageStop>
    requires geometry { geometry ≡ (P.state v.old).view.shape.geometry }
    requires inside { e.0 < (P.state v.old).view.shape.pages / 8 }
    requires own { (P.state v.old).view.other own ≡ None }
    ensures does { (looked : List ℕ) → (IsTrue (P.state v.old).told → Contains looked (pfs_page (P.state v.old).view.shape.geometry (8 * e.0))) → DoesAfter looked (P.state v.old) (P.state v.new) (sees (spec.is_in_use (P.state v.old).view.shape e.0)) result }
    ensures view { (P.state v.new).view ≡ (P.state v.old).view }
{
    reread_pfs(v, geometry, PageNo(8 * e.0), own, buffer)?;
    Ok(is_in_use(v, geometry, e, buffer))
}

// An extent is mixed and has a free page, or is free.
fn set_bits<P: PlanPages>(
    v: &mut P,
    geometry: Geometry,
    e: ExtentNo,
    in_use: bool,
    buffer: &mut Page,
) -> Result<(), PageStop>
    requires geometry { geometry ≡ (P.state v.old).view.shape.geometry }
    requires inside { e.0 < (P.state v.old).view.shape.pages / 8 }
    ensures { (looked : List ℕ) → (IsTrue (P.state v.old).told → Contains looked (gam_place (P.state v.old).view.shape.geometry e.0).page) → (IsTrue (P.state v.old).told → Contains looked (sgam_place (P.state v.old).view.shape.geometry e.0).page) → DoesAfter looked (P.state v.old) (P.state v.new) (spec.put_bits (P.state v.old).view.shape e.0 in_use) result }
{
    if in_use {
        return set_sgam_bit(v, geometry, e, 1, buffer);
    }
    set_sgam_bit(v, geometry, e, 0, buffer)?;
    set_gam_bit(v, geometry, e, 1, buffer)
}

/// Gives back a page of a mixed extent. The pages of maps are read under a resource that nobody else holds.
pub(crate) fn shared_freed<P: PlanPages>(
    v: &mut P,
    geometry: Geometry,
    p: PageNo,
    own: Resource,
    buffer: &mut Page,
) -> Result<(), PageStop>
    requires geometry { geometry ≡ (P.state v.old).view.shape.geometry }
    requires inside { p.0 < (P.state v.old).view.shape.pages }
    requires own { (P.state v.old).view.other own ≡ None }
    ensures { Does (P.state v.old) (P.state v.new) (spec.shared_freed (P.state v.old).view.shape p.0) result }
{
    let e = ExtentNo(p.0 / 8);
    read_pfs(v, geometry, p, own, buffer)?;
    v.take(Resource::Extent(e))?;
    read_gam(v, geometry, e, own, buffer)?;
    read_sgam(v, geometry, e, own, buffer)?;
    set_pfs_byte(v, geometry, p, 0, buffer)?;
    let in_use = check_in_use(v, geometry, e, own, buffer)?;
    set_bits(v, geometry, e, in_use, buffer)
}

// The maps of an extent are read, and it becomes free where it isn't in use.
fn extent_freed<P: PlanPages>(
    v: &mut P,
    geometry: Geometry,
    e: ExtentNo,
    in_use: bool,
    own: Resource,
    buffer: &mut Page,
) -> Result<(), PageStop>
    requires geometry { geometry ≡ (P.state v.old).view.shape.geometry }
    requires inside { e.0 < (P.state v.old).view.shape.pages / 8 }
    requires own { (P.state v.old).view.other own ≡ None }
    ensures { Does (P.state v.old) (P.state v.new) (spec.extent_freed (P.state v.old).view.shape e.0 in_use) result }
{
    if in_use {
        read_gam(v, geometry, e, own, buffer)?;
        return read_sgam(v, geometry, e, own, buffer);
    }
    v.take(Resource::Extent(e))?;
    read_gam(v, geometry, e, own, buffer)?;
    read_sgam(v, geometry, e, own, buffer)?;
    set_gam_bit(v, geometry, e, 1, buffer)
}

/// Gives back a page of a marked extent, and tells whether the extent is in use still.
pub(crate) fn marked_freed<P: PlanPages>(
    v: &mut P,
    geometry: Geometry,
    p: PageNo,
    own: Resource,
    buffer: &mut Page,
) -> Result<bool, PageStop>
    requires geometry { geometry ≡ (P.state v.old).view.shape.geometry }
    requires inside { p.0 < (P.state v.old).view.shape.pages }
    requires own { (P.state v.old).view.other own ≡ None }
    ensures { Does (P.state v.old) (P.state v.new) (spec.marked_freed (P.state v.old).view.shape p.0) result }
{
    let e = ExtentNo(p.0 / 8);
    read_pfs(v, geometry, p, own, buffer)?;
    set_pfs_byte(v, geometry, p, 0, buffer)?;
    let in_use = check_in_use(v, geometry, e, own, buffer)?;
    extent_freed(v, geometry, e, in_use, own, buffer)?;
    Ok(in_use)
}

/// Frees an extent that is in use no more, and is of no other kind.
pub(crate) fn left_freed<P: PlanPages>(
    v: &mut P,
    geometry: Geometry,
    e: ExtentNo,
    own: Resource,
    buffer: &mut Page,
) -> Result<(), PageStop>
    requires geometry { geometry ≡ (P.state v.old).view.shape.geometry }
    requires inside { e.0 < (P.state v.old).view.shape.pages / 8 }
    requires own { (P.state v.old).view.other own ≡ None }
    ensures { Does (P.state v.old) (P.state v.new) (objects.left_freed (P.state v.old).view.shape e.0) result }
{
    v.take(Resource::Extent(e))?;
    read_gam(v, geometry, e, own, buffer)?;
    set_gam_bit(v, geometry, e, 1, buffer)
}
