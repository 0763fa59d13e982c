// The maps of a file, read through a snapshot.
ghost use Rattle.std.specs.Prelude.{◌≡◌, ◌↔◌, ◌<◌, ◌≤◌, ◌/◌, [], IfOk, IfSome, OnOk, Contains, length, vec_len, slice_get, Some};
ghost use Rattle.spec_file.specs.declared.sizes.TheConstants.{ENTRY_COUNT};
ghost use Rattle.spec_file.specs.CatalogRows.{CatalogRow};
ghost use Rattle.std.specs.Option.{ForSome};
ghost use Rattle.std.specs.List.Sorted.{IsStrictlySortedBy};
ghost use Rattle.pg_base.specs.Stops.{stop_of};
ghost use Rattle.pg_base.specs.Reading.{OnlyReads};
ghost use Rattle.spec_file.specs.Places.{HasShape};
ghost use Rattle.ck_facts.specs.Maps.{page_use_cmp, rows_of_objects};
ghost use Rattle.ck_facts.specs.MapOf.{IsMapOf};
ghost use Rattle.ck_facts.specs.declared.map.PageUse.{PageUse};
ghost use Rattle.ck_alloc.specs.ChainsRead.{AreChainsRead, AreBare, IsFoundIn};

use crate::objects::objects_of;
use crate::system_maps::{SystemMaps, read_system};
use ck_chain::{Found, Owner, read_chain};
use ck_error::in_order;
use ck_facts::{AllocMap, CatRow, CheckError, ExtentMap, PageUse};
use db_cat::{CatStop, read_catalog};
use pg_base::{Geometry, NoMemory, Page, ReadStop, SnapReader};
use std::alloc::Global;

// The extents by their map bits, with no marks.
fn extents_of(alloc: Global, free: &[bool], mixed: &[bool]) -> Result<Vec<ExtentMap>, NoMemory>
    requires { length mixed.now ≡ length free.now }
    ensures bare { IfOk result (λ extents. AreBare free.now mixed.now extents.items) }
    ensures size { IfOk result (λ extents. vec_len extents ≡ length free.now) }
{
    let mut extents = Vec::new(alloc);
    for e in 0..free.len() {
        extents.push(ExtentMap {
            free: free[e],
            mixed: mixed[e],
            marks: [0; 16],
        })?;
    }
    Ok(extents)
}

// The uses by page, object and place, each once.
fn uses_in_order(uses: Vec<PageUse>) -> Vec<PageUse>
    ensures sorted { IsStrictlySortedBy page_use_cmp result.items }
    ensures same { (u : PageUse) → Contains result.items u ↔ Contains uses.items u }
{
    let mut uses = uses;
    uses.sort_unstable();
    uses.dedup();
    uses
}

fn owner_of(objects: &[CatRow], i: usize, g: Geometry, pages: u32) -> Owner
    requires { i < length objects.now }
    ensures geometry { result.geometry ≡ g }
    ensures pages { result.pages ≡ pages }
    ensures index { result.index ≡ i }
    ensures row { (row : CatalogRow) → slice_get (rows_of_objects objects.now) i ≡ Some row → row.id ≡ result.id }
{
    Owner {
        geometry: g,
        pages,
        id: objects[i].id.0,
        index: i,
    }
}

fn first_of(objects: &[CatRow], i: usize) -> u32
    requires { i < length objects.now }
    ensures { (row : CatalogRow) → slice_get (rows_of_objects objects.now) i ≡ Some row → row.first_iam ≡ result }
{
    objects[i].first_iam.0
}

// Reads the chains of all objects, which are given by id.
fn read_chains<R: SnapReader>(
    alloc: Global,
    reader: &mut R,
    g: Geometry,
    pages: u32,
    objects: &[CatRow],
    found: &mut Found,
) -> Result<(), ReadStop>
    requires count { R.pages reader.old ≡ pages }
    requires shape { HasShape g pages }
    requires few { length objects.now ≤ ENTRY_COUNT }
    requires extents { vec_len found.old.extents ≡ pages / 8 }
    ensures read { OnOk result (ForSome (R.image reader.old) (λ image. AreChainsRead g image (rows_of_objects objects.now) (length objects.now) found.old found.new)) }
    ensures extents { OnOk result (vec_len found.new.extents ≡ pages / 8) }
    ensures reads { OnlyReads R.SnapReader reader.old reader.new (stop_of result) }
{
    for i in 0..objects.len() {
        let owner = owner_of(objects, i, g, pages);
        read_chain(alloc, reader, &owner, first_of(objects, i), found)?;
    }
    Ok(())
}

// The maps of a file with system errors: these stand alone.
fn map_of_errors(alloc: Global, g: Geometry, pages: u32, system: Vec<CheckError>) -> AllocMap
    requires shape { HasShape g pages }
    requires some { system.items ≡ [] → ⊥ }
    ensures geometry { result.geometry ≡ g }
    ensures pages { result.pages ≡ pages }
    ensures system { result.system ≡ system }
{
    AllocMap {
        geometry: g,
        pages,
        system,
        objects: Vec::new(alloc),
        chains: Vec::new(alloc),
        uses: Vec::new(alloc),
        extents: Vec::new(alloc),
        pfs: Vec::new(alloc),
    }
}

// What the chains of all objects give, from the bits of the maps.
fn found_in<R: SnapReader>(
    alloc: Global,
    reader: &mut R,
    g: Geometry,
    pages: u32,
    objects: &[CatRow],
    free: &[bool],
    mixed: &[bool],
) -> Result<Found, ReadStop>
    requires count { R.pages reader.old ≡ pages }
    requires shape { HasShape g pages }
    requires few { length objects.now ≤ ENTRY_COUNT }
    requires free { length free.now ≡ pages / 8 }
    requires mixed { length mixed.now ≡ pages / 8 }
    ensures read { IfOk result (λ found. ForSome (R.image reader.old) (λ image. IsFoundIn g image (rows_of_objects objects.now) free.now mixed.now found)) }
    ensures extents { IfOk result (λ found. vec_len found.extents ≡ pages / 8) }
    ensures reads { OnlyReads R.SnapReader reader.old reader.new (stop_of result) }
{
    let extents = extents_of(alloc, free, mixed)?;
    let mut found = Found {
        errors: Vec::new(alloc),
        uses: Vec::new(alloc),
        extents,
    };
    read_chains(alloc, reader, g, pages, objects, &mut found)?;
    Ok(found)
}

/// Reads the maps of a file. Each map page, PFS page and the boot page is read once, each page of an IAM
/// chain once, and the page at which a chain ends once for each chain that ends there.
pub fn read_maps<R: SnapReader>(
    alloc: Global,
    reader: &mut R,
    g: Geometry,
    pages: u32,
) -> Result<AllocMap, ReadStop>
    requires count { R.pages reader.old ≡ pages }
    requires shape { HasShape g pages }
    ensures map { IfOk result (λ map. (map.geometry ≡ g) × (map.pages ≡ pages) × IfSome (R.image reader.old) (λ image. IsMapOf image map)) }
    ensures reads { OnlyReads R.SnapReader reader.old reader.new (stop_of result) }
{
    let maps = read_system(alloc, reader, g, pages)?;
    let SystemMaps {
        errors,
        free,
        mixed,
        pfs,
        boot,
    } = maps;
    let system = in_order(errors);
    if !system.is_empty() {
        return Ok(map_of_errors(alloc, g, pages, system));
    }
    let objects = objects_of(alloc, &boot)?;
    let found = found_in(alloc, reader, g, pages, &objects, &free, &mixed)?;
    let Found {
        errors,
        uses,
        extents,
    } = found;
    Ok(AllocMap {
        geometry: g,
        pages,
        system,
        objects,
        chains: errors,
        uses: uses_in_order(uses),
        extents,
        pfs,
    })
}
