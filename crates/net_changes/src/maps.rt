// The GAM bits, SGAM bits and PFS bytes that differ.
ghost use Rattle.std.specs.Prelude.{◌≡◌, ◌++◌, ◌*◌, ◌/◌, ◌<◌, ◌≤◌, IsTrue, OnOk};
ghost use Rattle.spec_file.specs.declared.sizes.TheConstants.{BIT_COUNT};
ghost use Rattle.spec_file.specs.Image.{page as page_of};
ghost use Rattle.spec_file.specs.Places.{page_limit};
ghost use Rattle.net_changes.specs.Bytes.{bits_between, runs_between};
ghost use Rattle.net_changes.specs.Shown.{map_place, bits_shown, runs_shown};

use crate::bits::add_bits;
use crate::pair::Pair;
use crate::put::read_put;
use crate::runs::{MOST_BYTES, add_runs};
use db_locks::PlanPages;
use pg_base::{ExtentNo, Geometry, NoMemory, PageNo};
use pg_geom::{gam_of, interval_size, pfs_of, pfs_span, sgam_of};
use spec_plan::Planned;
use std::alloc::Global;

/// The two maps of extents.
#[derive(Clone, Copy)]
pub(crate) enum Map {
    Gam,
    Sgam,
}

// The page of a map that has the bit of an extent.
fn map_page(geometry: Geometry, map: Map, e: ExtentNo) -> PageNo
    requires { 8 * e.0 < page_limit geometry }
    ensures { result.0 ≡ (map_place map geometry e.0).page }
{
    match map {
        Map::Gam => gam_of(geometry, e).0,
        Map::Sgam => sgam_of(geometry, e).0,
    }
}

// Adds the bits of one page of a map that turn.
fn add_page_bits<P: PlanPages>(
    alloc: Global,
    v: &P,
    page: PageNo,
    count: u32,
    changes: &mut Vec<Planned>,
    pair: &mut Pair,
) -> Result<(), NoMemory>
    requires { count ≤ BIT_COUNT }
    ensures { OnOk result (IsTrue (P.state v.now).told → changes.new.items ≡ changes.old.items
        ++ bits_between page.0 (page_of (P.state v.now).first page.0) (page_of (P.state v.now).shown page.0) 0 count) }
{
    if read_put(v, page, pair) {
        return add_bits(alloc, page, pair, count, changes);
    }
    Ok(())
}

/// Adds the bits of a map that turn, rising.
pub(crate) fn add_map_bits<P: PlanPages>(
    alloc: Global,
    v: &P,
    geometry: Geometry,
    pages: u32,
    map: Map,
    changes: &mut Vec<Planned>,
    pair: &mut Pair,
) -> Result<(), NoMemory>
    requires geometry { geometry ≡ (P.state v.now).view.shape.geometry }
    requires pages { pages ≡ (P.state v.now).view.shape.pages }
    ensures { OnOk result (IsTrue (P.state v.now).told → changes.new.items ≡ changes.old.items ++ bits_shown (P.state v.now) (map_place map geometry) 0 (pages / 8)) }
{
    let extents = pages / 8;
    let size = interval_size(geometry);
    for m in 0..extents.div_ceil(size) {
        let first = m * size;
        let page = map_page(geometry, map, ExtentNo(first));
        add_page_bits(alloc, v, page, size.min(extents - first), changes, pair)?;
    }
    Ok(())
}

// Adds the runs of one PFS page.
fn add_page_runs<P: PlanPages>(
    alloc: Global,
    v: &P,
    page: PageNo,
    count: u32,
    changes: &mut Vec<Planned>,
    pair: &mut Pair,
) -> Result<(), NoMemory>
    requires { count ≤ MOST_BYTES }
    ensures { OnOk result (IsTrue (P.state v.now).told → changes.new.items ≡ changes.old.items
        ++ runs_between page.0 (page_of (P.state v.now).first page.0) (page_of (P.state v.now).shown page.0) 0 count) }
{
    if read_put(v, page, pair) {
        return add_runs(alloc, page, pair, count, changes);
    }
    Ok(())
}

/// Adds the runs of PFS bytes that differ, rising.
pub(crate) fn add_byte_runs<P: PlanPages>(
    alloc: Global,
    v: &P,
    geometry: Geometry,
    pages: u32,
    changes: &mut Vec<Planned>,
    pair: &mut Pair,
) -> Result<(), NoMemory>
    requires geometry { geometry ≡ (P.state v.now).view.shape.geometry }
    requires pages { pages ≡ (P.state v.now).view.shape.pages }
    ensures { OnOk result (IsTrue (P.state v.now).told → changes.new.items ≡ changes.old.items ++ runs_shown (P.state v.now) 0 pages) }
{
    let span = pfs_span(geometry);
    for m in 0..pages.div_ceil(span) {
        let first = m * span;
        let (page, _at) = pfs_of(geometry, PageNo(first));
        add_page_runs(alloc, v, page, span.min(pages - first), changes, pair)?;
    }
    Ok(())
}
