// How the extents of a file are searched.
ghost use Rattle.std.specs.Prelude.{◌≡◌, ◌*◌, ◌<◌, ◌/◌, ℕ, Bool, Option, Err, if◌then◌else◌, IsTrue, IfOk, IfErr, IfSome, OnOk, Some, None, true, false};
ghost use Rattle.std.specs.Option.{option_map};
ghost use Rattle.spec_file.specs.declared.data.PageNo.{PageNo};
ghost use Rattle.spec_file.specs.declared.data.Resource.TheVariants as resource;
ghost use Rattle.spec_file.specs.declared.sizes.TheConstants.{BIT_COUNT};
ghost use Rattle.spec_file.specs.Image.{bit as bit_of};
ghost use Rattle.spec_file.specs.Places.{gam_place, pfs_page, page_limit};
ghost use Rattle.spec_file.specs.Roles.{is_ordinary, is_system_extent};
ghost use Rattle.spec_words.specs.Words.{◌then◌, sees};
ghost use Rattle.spec_alloc.specs.Search as spec;
ghost use Rattle.spec_words.specs.Views.{View};
ghost use Rattle.db_locks.specs.declared.plan_pages.PageStop.TheVariants as stop;
ghost use Rattle.db_locks.specs.Does.{Does, Stays};
ghost use Rattle.db_alloc.specs.Results.{value_as};
ghost use Rattle.db_alloc.specs.Maps.{MapTells, IsOwnable};
ghost use Rattle.db_alloc.specs.Searches.{fits_of, find_of, bits_fit, MayRead, AreRead};

use crate::maps::{is_held, read_gam, read_pfs, read_sgam, spare_page};
use db_locks::{PageStop, PlanPages};
use pg_base::{ExtentNo, Geometry, PAGE_SIZE, Page, PageNo, Resource};
use pg_geom::{gam_of, is_system};
use pg_maps::bit;
use std::alloc::Global;

/// What a search wants: a page that can be had of a mixed extent; or the first page of a free extent.
#[derive(Clone, Copy, Debug, PartialEq, Eq)]
pub(crate) enum Wanted {
    Shared,
    Unused,
}

/// How the maps of a file are read: its geometry and number of pages, and a resource under which they are
/// read, which no other transaction holds.
#[derive(Clone, Copy, Debug, PartialEq, Eq)]
pub(crate) struct Reader {
    pub geometry: Geometry,
    pub pages: u32,
    pub own: Resource,
}

/// Room for the pages of maps that a search reads, and which GAM page is there, with the SGAM page behind
/// it.
#[derive(Drop)]
pub(crate) struct Maps {
    pub read: Option<PageNo>,
    pub gam: Page,
    pub sgam: Page,
    pub pfs: Page,
}

/// Room for maps, none of which is read.
pub(crate) fn map_room(alloc: Global) -> Result<Box<Maps>, PageStop>
    ensures read { IfOk result (λ maps. maps.value.read ≡ None) }
    ensures short { IfErr result (λ e. e ≡ stop.NoMemory) }
{
    let maps = Maps {
        read: None,
        gam: Page {
            bytes: [0; PAGE_SIZE],
        },
        sgam: Page {
            bytes: [0; PAGE_SIZE],
        },
        pfs: Page {
            bytes: [0; PAGE_SIZE],
        },
    };
    match Box::new(alloc, maps) {
        Ok(maps) => Ok(maps),
        Err(_) => Err(PageStop::NoMemory),
    }
}

// Whether bit `at` of the GAM page and of the SGAM page are as wanted.
fn do_fit(wanted: Wanted, gam: &Page, sgam: &Page, at: u32) -> bool
    requires { at < BIT_COUNT }
    ensures { result ≡ bits_fit wanted (bit_of gam.now.bytes at) (bit_of sgam.now.bytes at) }
{
    let free = bit(gam, at);
    let mixed = bit(sgam, at);
    match wanted {
        Wanted::Shared => !free && mixed,
        Wanted::Unused => free && !mixed,
    }
}

// Whether this GAM page is there.
fn has_read(maps: &Maps, page: PageNo) -> bool
    ensures { IsTrue result → maps.now.read ≡ Some page }
{
    match maps.read {
        Some(q) => q.0 == page.0,
        None => false,
    }
}

// Reads the GAM page and the SGAM page of an extent.
fn read_maps<P: PlanPages>(
    v: &mut P,
    reader: Reader,
    e: ExtentNo,
    maps: &mut Maps,
) -> Result<(), PageStop>
    requires reader { MayRead reader (P.state v.old).view }
    requires inside { e.0 < (P.state v.old).view.shape.pages / 8 }
    ensures does { Does (P.state v.old) (P.state v.new) (spec.gam_read (P.state v.old).view.shape e.0 then (λ _. spec.sgam_read (P.state v.old).view.shape e.0)) result }
    ensures place { OnOk result (option_map (λ (p : PageNo). p.0) maps.new.read ≡ Some (gam_place (P.state v.old).view.shape.geometry e.0).page) }
    ensures told { OnOk result (IsTrue (P.state v.old).told → AreRead (P.state v.old).view maps.new) }
    ensures view { (P.state v.new).view ≡ (P.state v.old).view }
{
    let (page, _at) = gam_of(reader.geometry, e);
    read_gam(v, reader.geometry, e, reader.own, &mut maps.gam)?;
    read_sgam(v, reader.geometry, e, reader.own, &mut maps.sgam)?;
    maps.read = Some(page);
    Ok(())
}

// Reads the GAM page and the SGAM page of an extent, unless they are there. False where another transaction
// holds the extent, and they aren't.
fn have_maps<P: PlanPages>(
    v: &mut P,
    reader: Reader,
    e: ExtentNo,
    maps: &mut Maps,
) -> Result<bool, PageStop>
    requires reader { MayRead reader (P.state v.old).view }
    requires inside { e.0 < (P.state v.old).view.shape.pages / 8 }
    requires read { IsTrue (P.state v.old).told → AreRead (P.state v.old).view maps.old }
    ensures stops { IfErr result (λ stop. (fits : View → ℕ → Bool) → (find : View → ℕ → Option ℕ) → Does (P.state v.old) (P.state v.new) (spec.search_at (P.state v.old).view.shape fits find e.0) (Err stop)) }
    ensures stays { Stays (P.state v.old) (P.state v.new) }
    ensures held { IfOk result (λ have. have ≡ false → spec.is_held (P.state v.old).view (resource.Extent e) ≡ true) }
    ensures place { IfOk result (λ have. have ≡ true → option_map (λ (p : PageNo). p.0) maps.new.read ≡ Some (gam_place (P.state v.old).view.shape.geometry e.0).page) }
    ensures told { OnOk result (IsTrue (P.state v.old).told → AreRead (P.state v.old).view maps.new) }
    ensures view { (P.state v.new).view ≡ (P.state v.old).view }
{
    let (page, _at) = gam_of(reader.geometry, e);
    if has_read(maps, page) {
        return Ok(true);
    }
    let extent = Resource::Extent(e);
    if is_held(v, extent) {
        return Ok(false);
    }
    read_maps(v, reader, e, maps)?;
    Ok(true)
}

// The first page of an extent, unless that is a system extent.
fn first_page(geometry: Geometry, e: ExtentNo) -> Option<PageNo>
    requires { 8 * e.0 < page_limit geometry }
    ensures page { option_map (λ p. p.0) result ≡ (if is_system_extent geometry e.0 then None else Some (8 * e.0)) }
    ensures ordinary { IfSome result (λ p. (p.0 ≡ 8 * e.0) × (is_ordinary geometry p.0 ≡ true)) }
{
    if is_system(geometry, e) {
        return None;
    }
    Some(PageNo(8 * e.0))
}

// The page of an extent that a search wants, by the extent's PFS page, which was read.
fn page_in<P: PlanPages>(
    v: &P,
    geometry: Geometry,
    wanted: Wanted,
    e: ExtentNo,
    pfs: &Page,
) -> Option<PageNo>
    requires geometry { geometry ≡ (P.state v.now).view.shape.geometry }
    requires inside { e.0 < (P.state v.now).view.shape.pages / 8 }
    requires read { IsTrue (P.state v.now).told → MapTells (P.state v.now).view (pfs_page (P.state v.now).view.shape.geometry (8 * e.0)) pfs.now.bytes }
    ensures page { IsTrue (P.state v.now).told → option_map (λ p. p.0) result ≡ find_of wanted (P.state v.now).view.shape (P.state v.now).view e.0 }
    ensures ownable { IfSome result (λ p. IsOwnable (P.state v.now).view.shape p.0) }
{
    match wanted {
        Wanted::Shared => spare_page(v, geometry, e, pfs),
        Wanted::Unused => first_page(geometry, e),
    }
}

// The page of an extent that a search wants. Its PFS page is read.
fn find_in<P: PlanPages>(
    v: &mut P,
    reader: Reader,
    wanted: Wanted,
    e: ExtentNo,
    pfs: &mut Page,
) -> Result<Option<PageNo>, PageStop>
    requires reader { MayRead reader (P.state v.old).view }
    requires inside { e.0 < (P.state v.old).view.shape.pages / 8 }
    ensures does { Does (P.state v.old) (P.state v.new) (spec.pfs_read (P.state v.old).view.shape (8 * e.0) then (λ _. sees (λ view. find_of wanted (P.state v.old).view.shape view e.0))) (value_as (option_map (λ p. p.0)) result) }
    ensures ownable { IfOk result (λ found. IfSome found (λ p. IsOwnable (P.state v.old).view.shape p.0)) }
    ensures view { (P.state v.new).view ≡ (P.state v.old).view }
{
    read_pfs(v, reader.geometry, PageNo(8 * e.0), reader.own, pfs)?;
    Ok(page_in(v, reader.geometry, wanted, e, pfs))
}

// What a search finds in an extent.
fn search_at<P: PlanPages>(
    v: &mut P,
    reader: Reader,
    wanted: Wanted,
    e: ExtentNo,
    maps: &mut Maps,
) -> Result<Option<PageNo>, PageStop>
    requires reader { MayRead reader (P.state v.old).view }
    requires inside { e.0 < (P.state v.old).view.shape.pages / 8 }
    requires read { IsTrue (P.state v.old).told → AreRead (P.state v.old).view maps.old }
    ensures does { Does (P.state v.old) (P.state v.new) (spec.search_at (P.state v.old).view.shape (fits_of wanted (P.state v.old).view.shape) (find_of wanted (P.state v.old).view.shape) e.0) (value_as (option_map (λ p. p.0)) result) }
    ensures ownable { IfOk result (λ found. IfSome found (λ p. IsOwnable (P.state v.old).view.shape p.0)) }
    ensures told { OnOk result (IsTrue (P.state v.old).told → AreRead (P.state v.old).view maps.new) }
    ensures view { (P.state v.new).view ≡ (P.state v.old).view }
{
    let (_page, at) = gam_of(reader.geometry, e);
    let have = have_maps(v, reader, e, maps)?;
    if !have {
        return Ok(None);
    }
    if !do_fit(wanted, &maps.gam, &maps.sgam, at) {
        return Ok(None);
    }
    if is_held(v, Resource::Extent(e)) {
        return Ok(None);
    }
    find_in(v, reader, wanted, e, &mut maps.pfs)
}

/// Searches the extents of the file from the lowest up, for the first that has what is wanted. The map pages
/// of an interval are read once, where one of its extents isn't held; who holds an extent is asked until
/// then, and where its bits fit.
pub(crate) fn search<P: PlanPages>(
    v: &mut P,
    reader: Reader,
    wanted: Wanted,
    maps: &mut Maps,
) -> Result<Option<PageNo>, PageStop>
    requires reader { MayRead reader (P.state v.old).view }
    ensures does { Does (P.state v.old) (P.state v.new) (spec.search (P.state v.old).view.shape (fits_of wanted (P.state v.old).view.shape) (find_of wanted (P.state v.old).view.shape)) (value_as (option_map (λ p. p.0)) result) }
    ensures ownable { IfOk result (λ found. IfSome found (λ p. IsOwnable (P.state v.old).view.shape p.0)) }
    ensures view { (P.state v.new).view ≡ (P.state v.old).view }
{
    maps.read = None;
    for e in 0..reader.pages / 8 {
        let found = search_at(v, reader, wanted, ExtentNo(e), maps)?;
        if found.is_some() {
            return Ok(found);
        }
    }
    Ok(None)
}
