// The changes of pages that objects may own, and of page 9.
ghost use Rattle.std.specs.Prelude.{◌≡◌, ◌++◌, ◌==◌, ◌<◌, ◌≤◌, ◌∷◌, ◌||◌, [], IsTrue, OnOk, bytes_eq, not};
ghost use Rattle.std.specs.List.{range_with_len};
ghost use Rattle.spec_file.specs.Header.{page_type};
ghost use Rattle.spec_file.specs.Image.{page};
ghost use Rattle.spec_file.specs.Places.{page_limit};
ghost use Rattle.spec_rows.specs.Slots.{slot_count};
ghost use Rattle.spec_words.specs.NetChanges as spec;
ghost use Rattle.net_changes.specs.Bytes.{is_changed_page, is_kind, page_between, slots_between};
ghost use Rattle.net_changes.specs.Shown.{IsPair, is_due, pages_shown};

use crate::allocated::becomes_allocated;
use crate::pair::{Buffers, Pair, differs};
use crate::put::read_put;
use db_locks::PlanPages;
use heap_page::{add_page_changes, add_part_change};
use pg_base::{Geometry, IAM_TYPE, NoMemory, PAGE_SIZE, Page, PageNo, is_whole, read_header};
use pg_geom::is_ordinary;
use spec_plan::Planned;
use spec_rows::SLOT_LIMIT;
use std::alloc::Global;

// Whether any byte of the two differs.
fn differ(pair: &Pair) -> bool
    ensures { result ≡ not (bytes_eq pair.now.before.bytes pair.now.after.bytes) }
{
    is_whole(&pair.before);
    is_whole(&pair.after);
    for at in 0..PAGE_SIZE {
        if differs(pair, at) {
            return true;
        }
    }
    false
}

/// Whether page p is one that objects may own, and differs.
pub(crate) fn is_changed(geometry: Geometry, p: PageNo, pair: &Pair) -> bool
    requires { p.0 < page_limit geometry }
    ensures { result ≡ is_changed_page geometry p.0 pair.now.before.bytes pair.now.after.bytes }
{
    is_ordinary(geometry, p) && differ(pair)
}

fn is_iam(page: &Page) -> bool
    ensures { result ≡ (page_type page.now.bytes == IAM_TYPE) }
{
    page.bytes[1] == IAM_TYPE
}

// The page is an IAM page, or it is to be none.
fn has_kind(page: &Page, iams: bool) -> bool
    ensures { result ≡ is_kind iams page.now.bytes }
{
    if iams { is_iam(page) } else { !is_iam(page) }
}

fn slots_of(page: &Page) -> u16
    ensures { result ≡ slot_count page.now.bytes }
{
    read_header(page).slots
}

// How many slots the page has or had, as far as slots reach.
fn most_slots(pair: &Pair) -> u16
    ensures count { result ≡ slots_between pair.now.before.bytes pair.now.after.bytes }
    ensures few { result ≤ SLOT_LIMIT }
{
    slots_of(&pair.before)
        .max(slots_of(&pair.after))
        .min(SLOT_LIMIT)
}

// Adds the changes of page p: in one cell, or as rows, slots, header.
fn add_page(
    alloc: Global,
    p: PageNo,
    pair: &Pair,
    one_cell: bool,
    changes: &mut Vec<Planned>,
) -> Result<(), NoMemory>
    ensures { OnOk result (changes.new.items ≡ changes.old.items ++ page_between one_cell p.0 pair.now.before.bytes pair.now.after.bytes) }
{
    if one_cell {
        return add_part_change(alloc, changes, p, &pair.before, &pair.after, 0, PAGE_SIZE);
    }
    add_page_changes(
        alloc,
        changes,
        p,
        &pair.before,
        &pair.after,
        most_slots(pair),
    )
}

// Reads page p, and tells whether it differs, as an IAM page or as another.
fn read_due<P: PlanPages>(v: &P, geometry: Geometry, p: PageNo, iams: bool, pair: &mut Pair) -> bool
    requires { geometry ≡ (P.state v.now).view.shape.geometry }
    ensures due { IsTrue (P.state v.now).told → result ≡ is_due (P.state v.now) iams p.0 }
    ensures read { IsTrue result → IsTrue (P.state v.now).told → IsPair (P.state v.now) p.0 pair.new }
    ensures inside { IsTrue result → p.0 < (P.state v.now).view.shape.pages }
{
    if !read_put(v, p, pair) {
        return false;
    }
    is_changed(geometry, p, pair) && has_kind(&pair.after, iams)
}

// Page p changes in one cell: as an IAM page, or as one that becomes allocated.
fn has_one_cell<P: PlanPages>(
    v: &P,
    geometry: Geometry,
    p: PageNo,
    iams: bool,
    map: &mut Pair,
) -> bool
    requires geometry { geometry ≡ (P.state v.now).view.shape.geometry }
    requires inside { p.0 < (P.state v.now).view.shape.pages }
    ensures { IsTrue (P.state v.now).told → IsTrue (is_kind iams (page (P.state v.now).shown p.0)) → result
        ≡ (spec.is_iam (P.state v.now).shown p.0 || spec.becomes_allocated geometry (P.state v.now).first (P.state v.now).shown p.0) }
{
    if iams {
        return true;
    }
    becomes_allocated(v, geometry, p, map)
}

// Adds the changes of one page that was put, if it is due.
fn add_put_page<P: PlanPages>(
    alloc: Global,
    v: &P,
    geometry: Geometry,
    p: PageNo,
    iams: bool,
    changes: &mut Vec<Planned>,
    buffers: &mut Buffers,
) -> Result<(), NoMemory>
    requires { geometry ≡ (P.state v.now).view.shape.geometry }
    ensures { OnOk result (IsTrue (P.state v.now).told → changes.new.items ≡ changes.old.items ++ pages_shown (P.state v.now) iams (p.0 ∷ [])) }
{
    if !read_due(v, geometry, p, iams, &mut buffers.page) {
        return Ok(());
    }
    let one_cell = has_one_cell(v, geometry, p, iams, &mut buffers.map);
    add_page(alloc, p, &buffers.page, one_cell, changes)
}

/// Adds the changes of the IAM pages, or of the other pages that objects may own, rising.
pub(crate) fn add_pages<P: PlanPages>(
    alloc: Global,
    v: &P,
    geometry: Geometry,
    iams: bool,
    changes: &mut Vec<Planned>,
    buffers: &mut Buffers,
) -> Result<(), NoMemory>
    requires { geometry ≡ (P.state v.now).view.shape.geometry }
    ensures { OnOk result (IsTrue (P.state v.now).told → changes.new.items ≡ changes.old.items ++ pages_shown (P.state v.now) iams (range_with_len 0 (P.state v.now).view.shape.pages)) }
{
    let pages = v.changed();
    for p in pages {
        add_put_page(alloc, v, geometry, *p, iams, changes, buffers)?;
    }
    Ok(())
}

/// Adds the change of page 9.
pub(crate) fn add_boot<P: PlanPages>(
    alloc: Global,
    v: &P,
    changes: &mut Vec<Planned>,
    pair: &mut Pair,
) -> Result<(), NoMemory>
    ensures { OnOk result (IsTrue (P.state v.now).told → changes.new.items ≡ changes.old.items ++ spec.part_changes (P.state v.now).first (P.state v.now).shown 9 0 PAGE_SIZE) }
{
    if read_put(v, PageNo(9), pair) {
        return add_part_change(
            alloc,
            changes,
            PageNo(9),
            &pair.before,
            &pair.after,
            0,
            PAGE_SIZE,
        );
    }
    Ok(())
}
