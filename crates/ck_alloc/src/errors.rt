// The allocation errors of a file, by its maps.
ghost use Rattle.std.specs.Prelude.{◌≡◌, ◌+◌, ◌*◌, ◌/◌, ◌<◌, IfOk, OnOk};
ghost use Rattle.spec_file.specs.Image.{Image};
ghost use Rattle.spec_check.specs.Errors.{Lists};
ghost use Rattle.spec_check.specs.Allocation.{IsAllocationError};
ghost use Rattle.ck_error.specs.Gathered.{Adds, Below};
ghost use Rattle.ck_facts.specs.Maps.{HasNoSystemErrors};
ghost use Rattle.ck_facts.specs.MapOf.{IsMapOf, extent_at};
ghost use Rattle.ck_facts.specs.PageUses.{IsByPage};
ghost use Rattle.ck_alloc.specs.Held as held;
ghost use Rattle.ck_alloc.specs.MapRules as rules_of;
ghost use Rattle.ck_alloc.specs.ExtentRules.{ExtentSays};
ghost use Rattle.ck_alloc.specs.PageRules.{PageSays};

use crate::extents::{ExtentState, add_extent_errors};
use crate::markers::{Markers, markers_of};
use crate::pages::{PageState, add_page_errors};
use ck_error::{CheckError, in_order};
use ck_facts::{AllocMap, ExtentMap, PageUse, uses_between};
use pg_base::{ExtentNo, PageNo};
use pg_geom::{is_system, role_of};
use spec_file::NoMemory;
use std::alloc::Global;

fn extent_at(map: &AllocMap, e: u32) -> ExtentMap
    ensures { result ≡ extent_at map.now e }
{
    match map.extents.get(e as usize) {
        Some(extent) => *extent,
        None => ExtentMap {
            free: false,
            mixed: false,
            marks: [0; 16],
        },
    }
}

// Whether a page of the extent has a use, or is the boot page.
fn holds_use(uses: &[PageUse], e: u32) -> bool
    requires { e < 65536 }
    ensures { IsByPage uses.now → result ≡ held.holds_use uses.now e }
{
    let used = uses_between(uses, 8 * e, 8 * e + 8);
    !used.is_empty() || e == 1
}

fn extent_state(map: &AllocMap, e: u32) -> ExtentState
    requires { 8 * e < map.now.pages }
    ensures state { IsByPage map.now.uses.items → result ≡ rules_of.extent_state map.now e }
    ensures bound { result.extent < 65536 }
{
    let extent = extent_at(map, e);
    ExtentState {
        extent: e,
        free: extent.free,
        mixed: extent.mixed,
        system: is_system(map.geometry, ExtentNo(e)),
        used: holds_use(&map.uses, e),
    }
}

fn markers_at(map: &AllocMap, e: u32) -> Markers
    requires sound { HasNoSystemErrors map.now }
    requires inside { 8 * e < map.now.pages }
    ensures { result.items ≡ rules_of.markers_at map.now e }
{
    let extent = extent_at(map, e);
    markers_of(&map.objects, &extent)
}

fn page_state(map: &AllocMap, p: u32) -> PageState
    requires { p < map.now.pages }
    ensures { result ≡ rules_of.page_state map.now p }
{
    PageState {
        page: p,
        role: role_of(map.geometry, PageNo(p)),
        byte: map.pfs(PageNo(p)),
    }
}

// Adds the errors of a page, in an extent that these objects mark.
fn add_page(
    errors: &mut Vec<CheckError>,
    map: &AllocMap,
    p: u32,
    markers: &[u32],
) -> Result<(), NoMemory>
    requires { p < map.now.pages }
    ensures { OnOk result (IsByPage map.now.uses.items
        → Adds errors.old.items errors.new.items (PageSays (rules_of.page_state map.now p) (rules_of.uses_at map.now p) markers.now)) }
{
    let state = page_state(map, p);
    let uses = uses_between(&map.uses, p, p + 1);
    add_page_errors(errors, &state, uses, markers)
}

// Adds the errors of the pages of an extent that these objects mark.
fn add_pages(
    errors: &mut Vec<CheckError>,
    map: &AllocMap,
    e: u32,
    markers: &[u32],
) -> Result<(), NoMemory>
    requires { 8 * e < map.now.pages }
    ensures { OnOk result (IsByPage map.now.uses.items
        → Adds errors.old.items errors.new.items
        (Below 8 (λ k. PageSays (rules_of.page_state map.now (8 * e + k)) (rules_of.uses_at map.now (8 * e + k)) markers.now))) }
{
    for k in 0..8 {
        add_page(errors, map, 8 * e + k, markers)?;
    }
    Ok(())
}

fn add_extent(
    errors: &mut Vec<CheckError>,
    map: &AllocMap,
    e: u32,
    markers: &[u32],
) -> Result<(), NoMemory>
    requires { 8 * e < map.now.pages }
    ensures { OnOk result (IsByPage map.now.uses.items
        → Adds errors.old.items errors.new.items (ExtentSays (rules_of.extent_state map.now e) markers.now)) }
{
    let state = extent_state(map, e);
    add_extent_errors(errors, &state, markers)
}

// Adds the errors of an extent and of its pages.
fn add_part(errors: &mut Vec<CheckError>, map: &AllocMap, e: u32) -> Result<(), NoMemory>
    requires sound { HasNoSystemErrors map.now }
    requires inside { 8 * e < map.now.pages }
    ensures { OnOk result (IsByPage map.now.uses.items
        → Adds errors.old.items errors.new.items (rules_of.PartOfMapSays map.now e)) }
{
    let markers = markers_at(map, e);
    add_extent(errors, map, e, &markers)?;
    add_pages(errors, map, e, &markers)
}

// Adds the errors of all extents and pages.
fn add_parts(errors: &mut Vec<CheckError>, map: &AllocMap) -> Result<(), NoMemory>
    requires { HasNoSystemErrors map.now }
    ensures { OnOk result (IsByPage map.now.uses.items
        → Adds errors.old.items errors.new.items (Below (map.now.pages / 8) (rules_of.PartOfMapSays map.now))) }
{
    for e in 0..map.extents() {
        add_part(errors, map, e)?;
    }
    Ok(())
}

// The errors of chains, and those of all extents and pages.
fn gathered(alloc: Global, map: &AllocMap) -> Result<Vec<CheckError>, NoMemory>
    requires { HasNoSystemErrors map.now }
    ensures { IfOk result (λ errors. IsByPage map.now.uses.items
        → Adds map.now.chains.items errors.items (Below (map.now.pages / 8) (rules_of.PartOfMapSays map.now))) }
{
    let mut errors = Vec::from_slice(alloc, &map.chains)?;
    add_parts(&mut errors, map)?;
    Ok(errors)
}

/// The errors of the allocation rules that need no ordinary page but IAM pages, in order, each once.
///
/// Where the map is that of an image, they are the image's.
pub fn alloc_errors(alloc: Global, map: &AllocMap) -> Result<Vec<CheckError>, NoMemory>
    requires { HasNoSystemErrors map.now }
    ensures { IfOk result (λ errors. (image : Image) → IsMapOf image map.now
        → Lists errors.items (IsAllocationError map.now.geometry image)) }
{
    Ok(in_order(gathered(alloc, map)?))
}
