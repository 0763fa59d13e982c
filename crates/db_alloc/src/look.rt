// Pages read on the view of a statement.
ghost use Rattle.std.specs.Prelude.{◌≡◌, ◌<◌, true, IsTrue, IfOk, OnOk, None};
ghost use Rattle.spec_file.specs.declared.data.Resource.TheVariants as resource;
ghost use Rattle.spec_file.specs.Image.{page};
ghost use Rattle.spec_file.specs.Places.{pfs_page};
ghost use Rattle.spec_file.specs.Roles.{is_ordinary};
ghost use Rattle.spec_chain.specs.Uses.{pfs_byte};
ghost use Rattle.spec_words.specs.Words.{look};
ghost use Rattle.db_locks.specs.Does.{Does, filled};
ghost use Rattle.db_alloc.specs.Results.{value_as};
ghost use Rattle.db_alloc.specs.Tables.{byte_looked};

use db_locks::{PageStop, PlanPages};
use pg_base::{Geometry, PFS_TYPE, Page, PageNo, Resource, is_page_of, is_whole};
use pg_geom::pfs_of;

/// Reads page 9.
pub(crate) fn look_catalog<P: PlanPages>(v: &mut P, into: &mut Page) -> Result<(), PageStop>
    ensures look { Does (P.state v.old) (P.state v.new) (look resource.Catalog 9) (filled (page (P.state v.old).view.now 9) result) }
    ensures free { OnOk result ((P.state v.old).view.other resource.Catalog ≡ None) }
    ensures told { OnOk result (IsTrue (P.state v.old).told → into.new.bytes ≡ page (P.state v.old).view.now 9) }
    ensures view { (P.state v.new).view ≡ (P.state v.old).view }
{
    v.look(PageNo(9), Resource::Catalog, into)?;
    is_whole(into);
    Ok(())
}

/// Reads page p, which an object may own.
pub(crate) fn look_page<P: PlanPages>(v: &mut P, p: PageNo, into: &mut Page) -> Result<(), PageStop>
    requires { p.0 < (P.state v.old).view.shape.pages }
    ensures look { Does (P.state v.old) (P.state v.new) (look (resource.Page p) p.0) (filled (page (P.state v.old).view.now p.0) result) }
    ensures told { OnOk result (IsTrue (P.state v.old).told → is_ordinary (P.state v.old).view.shape.geometry p.0 ≡ true → into.new.bytes ≡ page (P.state v.old).view.now p.0) }
    ensures view { (P.state v.new).view ≡ (P.state v.old).view }
{
    v.look(p, Resource::Page(p), into)?;
    is_whole(into);
    Ok(())
}

/// The PFS byte of page p.
pub(crate) fn look_byte<P: PlanPages>(
    v: &mut P,
    geometry: Geometry,
    p: PageNo,
    into: &mut Page,
) -> Result<u8, PageStop>
    requires geometry { geometry ≡ (P.state v.old).view.shape.geometry }
    requires inside { p.0 < (P.state v.old).view.shape.pages }
    ensures does { Does (P.state v.old) (P.state v.new) (byte_looked (P.state v.old).view.shape p.0) (value_as (λ byte. tt) result) }
    ensures told { IfOk result (λ byte. IsTrue (P.state v.old).told → byte ≡ pfs_byte (P.state v.old).view.shape.geometry (P.state v.old).view.now p.0) }
    ensures view { (P.state v.new).view ≡ (P.state v.old).view }
{
    let (page, at) = pfs_of(geometry, p);
    v.look(page, Resource::Byte(p), into)?;
    is_whole(into);
    if !is_page_of(into, PFS_TYPE, page) {
        return Err(PageStop::Bad(page));
    }
    Ok(into.bytes[at as usize])
}

/// The PFS byte of page p, whose PFS page is read once more and not tested.
pub(crate) fn reread_byte<P: PlanPages>(
    v: &mut P,
    geometry: Geometry,
    p: PageNo,
    into: &mut Page,
) -> Result<u8, PageStop>
    requires geometry { geometry ≡ (P.state v.old).view.shape.geometry }
    requires inside { p.0 < (P.state v.old).view.shape.pages }
    ensures look { Does (P.state v.old) (P.state v.new) (look (resource.Byte p) (pfs_page (P.state v.old).view.shape.geometry p.0)) (value_as (λ byte. page (P.state v.old).view.now (pfs_page (P.state v.old).view.shape.geometry p.0)) result) }
    ensures told { IfOk result (λ byte. IsTrue (P.state v.old).told → byte ≡ pfs_byte (P.state v.old).view.shape.geometry (P.state v.old).view.now p.0) }
    ensures view { (P.state v.new).view ≡ (P.state v.old).view }
{
    let (page, at) = pfs_of(geometry, p);
    v.look(page, Resource::Byte(p), into)?;
    is_whole(into);
    Ok(into.bytes[at as usize])
}
