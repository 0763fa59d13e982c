// A single page, which several objects' extents may be shared by, is found and taken.
ghost use Rattle.std.specs.Prelude.{◌≡◌, ◌/◌, ◌<◌, ℕ, List, Err, IsTrue, IfOk, IfSome, OnOk};
ghost use Rattle.std.specs.Option.{option_map};
ghost use Rattle.spec_words.specs.Words.{◌then◌};
ghost use Rattle.spec_alloc.specs.Search.{search, where_found};
ghost use Rattle.spec_alloc.specs.SinglePages as spec;
ghost use Rattle.db_locks.specs.Does.{Does, DoesAs, DoesAfter};
ghost use Rattle.db_alloc.specs.Results.{value_as, alloc_stop};
ghost use Rattle.db_alloc.specs.Maps.{IsOwnable};
ghost use Rattle.db_alloc.specs.Searches.{MayRead, WereReached};

use crate::maps::{reread_pfs, spare_page};
use crate::search::{Maps, Reader, Wanted, search};
use db_locks::{PageStop, PlanPages, set_gam_bit, set_pfs_byte, set_sgam_bit};
use pg_base::{ExtentNo, PageNo, Resource};

/// Why no page is given.
#[derive(Clone, Copy, Debug, PartialEq, Eq)]
pub enum AllocStop {
    Page(PageStop),
    /// No page of the file is to be had.
    Full,
}

impl From<PageStop> for AllocStop {
    ghost use Rattle.db_alloc.specs.declared.single.AllocStop.TheVariants.{Page};

    ghost from_gives = { λ e stop. stop ≡ Page e };

    fn from(e: PageStop) -> Self {
        AllocStop::Page(e)
    }
}

// The SGAM bit of the extent of page p becomes 0 where none of its pages can be had.
fn lower_sgam<P: PlanPages>(
    v: &mut P,
    reader: Reader,
    p: PageNo,
    maps: &mut Maps,
) -> Result<(), PageStop>
    requires reader { MayRead reader (P.state v.old).view }
    requires inside { p.0 < (P.state v.old).view.shape.pages }
    ensures { (looked : List ℕ) → (IsTrue (P.state v.old).told → WereReached looked (P.state v.old).view.shape p.0) → DoesAfter looked (P.state v.old) (P.state v.new) (spec.lower_sgam (P.state v.old).view.shape (p.0 / 8)) result }
{
    let e = ExtentNo(p.0 / 8);
    reread_pfs(v, reader.geometry, p, reader.own, &mut maps.pfs)?;
    let left = spare_page(v, reader.geometry, e, &maps.pfs);
    if left.is_some() {
        return Ok(());
    }
    set_sgam_bit(v, reader.geometry, e, 0, &mut maps.sgam)
}

// Page p of a mixed extent gets a PFS byte, and its extent is taken.
fn take_mixed<P: PlanPages>(
    v: &mut P,
    reader: Reader,
    byte: u8,
    p: PageNo,
    maps: &mut Maps,
) -> Result<PageNo, PageStop>
    requires reader { MayRead reader (P.state v.old).view }
    requires inside { p.0 < (P.state v.old).view.shape.pages }
    ensures does { (looked : List ℕ) → (IsTrue (P.state v.old).told → WereReached looked (P.state v.old).view.shape p.0) → DoesAfter looked (P.state v.old) (P.state v.new) (spec.of_mixed (P.state v.old).view.shape byte p.0) (value_as (λ p. p.0) result) }
    ensures same { IfOk result (λ q. q ≡ p) }
{
    v.take(Resource::Extent(ExtentNo(p.0 / 8)))?;
    set_pfs_byte(v, reader.geometry, p, byte, &mut maps.pfs)?;
    lower_sgam(v, reader, p, maps)?;
    Ok(p)
}

// Page p, the first of a free extent, gets a PFS byte. The extent becomes mixed.
fn take_free<P: PlanPages>(
    v: &mut P,
    reader: Reader,
    byte: u8,
    p: PageNo,
    maps: &mut Maps,
) -> Result<PageNo, PageStop>
    requires reader { MayRead reader (P.state v.old).view }
    requires inside { p.0 < (P.state v.old).view.shape.pages }
    ensures does { (looked : List ℕ) → (IsTrue (P.state v.old).told → WereReached looked (P.state v.old).view.shape p.0) → DoesAfter looked (P.state v.old) (P.state v.new) (spec.of_free (P.state v.old).view.shape byte p.0) (value_as (λ p. p.0) result) }
    ensures same { IfOk result (λ q. q ≡ p) }
{
    let e = ExtentNo(p.0 / 8);
    set_gam_bit(v, reader.geometry, e, 0, &mut maps.gam)?;
    set_sgam_bit(v, reader.geometry, e, 1, &mut maps.sgam)?;
    take_mixed(v, reader, byte, p, maps)
}

// A page of the lowest mixed extent that has one.
fn shared_page<P: PlanPages>(
    v: &mut P,
    reader: Reader,
    byte: u8,
    maps: &mut Maps,
) -> Result<Option<PageNo>, PageStop>
    requires reader { MayRead reader (P.state v.old).view }
    ensures does { Does (P.state v.old) (P.state v.new) (search (P.state v.old).view.shape (spec.is_shared (P.state v.old).view.shape) (spec.spare_page (P.state v.old).view.shape) then (λ found. where_found found (spec.of_mixed (P.state v.old).view.shape byte))) (value_as (option_map (λ p. p.0)) result) }
    ensures ownable { IfOk result (λ found. IfSome found (λ p. IsOwnable (P.state v.old).view.shape p.0)) }
{
    match search(v, reader, Wanted::Shared, maps)? {
        Some(p) => Ok(Some(take_mixed(v, reader, byte, p, maps)?)),
        None => Ok(None),
    }
}

// The first page of the lowest free extent, which becomes mixed.
fn unused_page<P: PlanPages>(
    v: &mut P,
    reader: Reader,
    byte: u8,
    maps: &mut Maps,
) -> Result<Option<PageNo>, PageStop>
    requires reader { MayRead reader (P.state v.old).view }
    ensures does { Does (P.state v.old) (P.state v.new) (search (P.state v.old).view.shape (spec.is_unused (P.state v.old).view.shape) (spec.first_page_of (P.state v.old).view.shape) then (λ found. where_found found (spec.of_free (P.state v.old).view.shape byte))) (value_as (option_map (λ p. p.0)) result) }
    ensures ownable { IfOk result (λ found. IfSome found (λ p. IsOwnable (P.state v.old).view.shape p.0)) }
{
    match search(v, reader, Wanted::Unused, maps)? {
        Some(p) => Ok(Some(take_free(v, reader, byte, p, maps)?)),
        None => Ok(None),
    }
}

/// A single page with this PFS byte: of the lowest mixed extent that has one, else of the lowest free
/// extent. None where no page is to be had.
pub(crate) fn single_page<P: PlanPages>(
    v: &mut P,
    reader: Reader,
    byte: u8,
    maps: &mut Maps,
) -> Result<Option<PageNo>, PageStop>
    requires reader { MayRead reader (P.state v.old).view }
    ensures does { Does (P.state v.old) (P.state v.new) (spec.single_page (P.state v.old).view.shape byte) (value_as (option_map (λ p. p.0)) result) }
    ensures ownable { IfOk result (λ found. IfSome found (λ p. IsOwnable (P.state v.old).view.shape p.0)) }
{
    let found = shared_page(v, reader, byte, maps)?;
    if found.is_some() {
        return Ok(found);
    }
    unused_page(v, reader, byte, maps)
}

/// Why no page is to be had: another transaction holds an extent, the lowest such; or else the file is full.
pub(crate) fn no_page<P: PlanPages>(v: &P, pages: u32) -> AllocStop
    requires pages { pages ≡ (P.state v.now).view.shape.pages }
    ensures { (looked : List ℕ) → DoesAs alloc_stop looked (P.state v.now) (P.state v.now) (spec.no_page {A = ℕ} (P.state v.now).view.shape) (Err result) }
{
    for e in 0..pages / 8 {
        let resource = Resource::Extent(ExtentNo(e));
        if let Some(by) = v.holder(resource) {
            return AllocStop::Page(PageStop::Held { resource, by });
        }
    }
    AllocStop::Full
}
