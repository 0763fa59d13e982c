//! PFS bytes and whole pages, page 9 among them, read and written as the words of plans say.
ghost use Rattle.std.specs.Prelude.{◌≡◌, ◌<◌, ℕ, List, IsTrue, Contains, All, map, true};
ghost use Rattle.spec_file.specs.declared.data.Resource.TheVariants as resource;
ghost use Rattle.spec_file.specs.Places.{pfs_page};
ghost use Rattle.spec_file.specs.Roles.{is_ordinary};
ghost use Rattle.spec_words.specs.Words.{look, unless_held, put_pfs, put_page as page_put, put_catalog as catalog_put};
ghost use Rattle.spec_words.specs.Tables.{bytes_read};
ghost use Rattle.db_locks.specs.Cells.{pfs_byte_read, pfs_page_read};
ghost use Rattle.db_locks.specs.Does.{Does, DoesAfter, filled};

use crate::{PageStop, PlanPages};
use pg_base::{Geometry, PFS_TYPE, Page, PageNo, Resource, is_page_of, is_whole};
use pg_geom::pfs_of;

/// Fills `into` with a page that objects may own, under its own resource.
pub fn look_page<P: PlanPages>(view: &mut P, p: PageNo, into: &mut Page) -> Result<(), PageStop>
    requires inside { p.0 < (P.state view.old).view.shape.pages }
    requires ordinary { is_ordinary (P.state view.old).view.shape.geometry p.0 ≡ true }
    ensures does { Does (P.state view.old) (P.state view.new) (look (resource.Page p) p.0) (filled into.new.bytes result) }
    ensures view { (P.state view.new).view ≡ (P.state view.old).view }
{
    view.look(p, Resource::Page(p), into)?;
    is_whole(into);
    Ok(())
}

/// Fills `into` with page 9, under the catalog's resource.
pub fn look_catalog<P: PlanPages>(view: &mut P, into: &mut Page) -> Result<(), PageStop>
    ensures does { Does (P.state view.old) (P.state view.new) (look resource.Catalog 9) (filled into.new.bytes result) }
    ensures view { (P.state view.new).view ≡ (P.state view.old).view }
{
    view.look(PageNo(9), Resource::Catalog, into)?;
    is_whole(into);
    Ok(())
}

/// Whether another transaction holds a resource, asked by one more look at a page that the statement has
/// reached.
pub fn check_free<P: PlanPages>(
    view: &mut P,
    p: PageNo,
    r: Resource,
    buffer: &mut Page,
) -> Result<(), PageStop>
    requires { p.0 < (P.state view.old).view.shape.pages }
    ensures does { (looked : List ℕ) → (IsTrue (P.state view.old).told → Contains looked p.0) → DoesAfter looked (P.state view.old) (P.state view.new) (unless_held r) result }
    ensures view { (P.state view.new).view ≡ (P.state view.old).view }
{
    view.look(p, r, buffer)?;
    Ok(())
}

/// Looks at the PFS page of page `p`, for the byte of `p`: `Bad` where it doesn't say that it is a PFS page,
/// and which.
pub fn check_pfs_page<P: PlanPages>(
    view: &mut P,
    geometry: Geometry,
    p: PageNo,
    buffer: &mut Page,
) -> Result<(), PageStop>
    requires geometry { geometry ≡ (P.state view.old).view.shape.geometry }
    requires inside { p.0 < (P.state view.old).view.shape.pages }
    ensures does { Does (P.state view.old) (P.state view.new) (pfs_page_read (P.state view.old).view.shape p.0) result }
    ensures view { (P.state view.new).view ≡ (P.state view.old).view }
{
    let (page, _at) = pfs_of(geometry, p);
    view.look(page, Resource::Byte(p), buffer)?;
    if !is_page_of(buffer, PFS_TYPE, page) {
        return Err(PageStop::Bad(page));
    }
    Ok(())
}

/// Looks at the PFS pages of these pages, one after another.
pub fn check_pfs_pages<P: PlanPages>(
    view: &mut P,
    geometry: Geometry,
    pages: &[PageNo],
    buffer: &mut Page,
) -> Result<(), PageStop>
    requires geometry { geometry ≡ (P.state view.old).view.shape.geometry }
    requires inside { All (λ p. p.0 < (P.state view.old).view.shape.pages) pages.now }
    ensures does { Does (P.state view.old) (P.state view.new) (bytes_read (P.state view.old).view.shape (map (λ p. p.0) pages.now)) result }
    ensures view { (P.state view.new).view ≡ (P.state view.old).view }
{
    for p in pages {
        check_pfs_page(view, geometry, *p, buffer)?;
    }
    Ok(())
}

/// The PFS byte of page `p`. The PFS page is read into `buffer`.
pub fn read_pfs_byte<P: PlanPages>(
    view: &mut P,
    geometry: Geometry,
    p: PageNo,
    buffer: &mut Page,
) -> Result<u8, PageStop>
    requires geometry { geometry ≡ (P.state view.old).view.shape.geometry }
    requires inside { p.0 < (P.state view.old).view.shape.pages }
    ensures does { Does (P.state view.old) (P.state view.new) (pfs_byte_read (P.state view.old).view.shape p.0) result }
    ensures view { (P.state view.new).view ≡ (P.state view.old).view }
{
    let (page, at) = pfs_of(geometry, p);
    view.look(page, Resource::Byte(p), buffer)?;
    is_whole(buffer);
    Ok(buffer.bytes[at as usize])
}

/// Takes and writes the PFS byte of page `p`. The PFS page, which the statement has reached, is read into
/// `buffer` once more, and put.
pub fn set_pfs_byte<P: PlanPages>(
    view: &mut P,
    geometry: Geometry,
    p: PageNo,
    byte: u8,
    buffer: &mut Page,
) -> Result<(), PageStop>
    requires geometry { geometry ≡ (P.state view.old).view.shape.geometry }
    requires inside { p.0 < (P.state view.old).view.shape.pages }
    ensures { (looked : List ℕ) → (IsTrue (P.state view.old).told → Contains looked (pfs_page geometry p.0)) → DoesAfter looked (P.state view.old) (P.state view.new) (put_pfs (P.state view.old).view.shape p.0 byte) result }
{
    let (page, at) = pfs_of(geometry, p);
    view.look(page, Resource::Byte(p), buffer)?;
    is_whole(buffer);
    view.take(Resource::Byte(p))?;
    buffer.bytes[at as usize] = byte;
    view.put(page, buffer)
}

/// Takes and replaces a page that objects may own, which the statement has reached.
pub fn put_page<P: PlanPages>(view: &mut P, p: PageNo, from: &Page) -> Result<(), PageStop>
    requires inside { p.0 < (P.state view.old).view.shape.pages }
    requires ordinary { is_ordinary (P.state view.old).view.shape.geometry p.0 ≡ true }
    ensures { (looked : List ℕ) → (IsTrue (P.state view.old).told → Contains looked p.0) → DoesAfter looked (P.state view.old) (P.state view.new) (page_put p.0 from.now.bytes) result }
{
    view.take(Resource::Page(p))?;
    is_whole(from);
    view.put(p, from)
}

/// Takes the catalog and replaces page 9, which the statement has reached.
pub fn put_catalog<P: PlanPages>(view: &mut P, from: &Page) -> Result<(), PageStop>
    ensures { (looked : List ℕ) → (IsTrue (P.state view.old).told → Contains looked 9) → DoesAfter looked (P.state view.old) (P.state view.new) (catalog_put 0 from.now.bytes) result }
{
    view.take(Resource::Catalog)?;
    is_whole(from);
    view.put(PageNo(9), from)
}
