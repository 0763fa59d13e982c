// The walk along a chain, page by page.
ghost use Rattle.std.specs.Prelude.{◌≡◌, ◌*◌, ◌/◌, ◌<◌, ◌≤◌, IsTrue, None, OnOk, IfOk, IfSome, length, vec_len, slice_index_or, false};
ghost use Rattle.spec_file.specs.declared.sizes.TheConstants.{ENTRY_COUNT};
ghost use Rattle.spec_file.specs.Image.{page as image_page};
ghost use Rattle.spec_file.specs.Iam.{iam_interval, has_interval};
ghost use Rattle.pg_iam.specs.Views.{bytes_of, Views};
ghost use Rattle.spec_file.specs.CatalogRows.{CatalogRow};
ghost use Rattle.spec_chain.specs.Chains.{fault_of_number as number_fault};
ghost use Rattle.pg_base.specs.Stops.{stop_of};
ghost use Rattle.pg_base.specs.Reading.{OnlyReads};
ghost use Rattle.spec_file.specs.Places.{HasShape};
ghost use Rattle.ck_chain.specs.Walks.{looked_at, met_end, inside_count, TakesPage, GoesOnBehind, IsChainRead};
ghost use Rattle.std.specs.Option.{ForSome};

use crate::ends::{fault_of_number, fault_of_page, note_end};
use crate::found::Found;
use crate::walk::{Owner, Walk};
use pg_base::{NoMemory, Page, PageNo, ReadStop, SnapReader};
use pg_geom::interval_size;
use pg_iam::{IamView, test_iam};
use spec_chain::ChainEnd;
use std::alloc::Global;

// Whether the walk has met its next page.
fn met(walk: &Walk) -> Option<ChainEnd>
    requires { walk.now.link.page < vec_len walk.now.met }
    ensures { result ≡ met_end (slice_index_or walk.now.met.items walk.now.link.page false) }
{
    if walk.met[walk.link.page as usize] {
        Some(ChainEnd::Met)
    } else {
        None
    }
}

// How the chain ends at the walk's next page, if it ends there. The page is read where its number is good.
fn look<R: SnapReader>(
    reader: &mut R,
    owner: &Owner,
    walk: &Walk,
    page: &mut Page,
) -> Result<Option<ChainEnd>, ReadStop>
    requires count { R.pages reader.old ≡ owner.now.pages }
    requires shape { HasShape owner.now.geometry owner.now.pages }
    requires size { vec_len walk.now.met ≡ owner.now.pages }
    ensures end { IfOk result (λ end. end ≡ looked_at owner.now walk.now page.new.bytes) }
    ensures read { OnOk result (number_fault owner.now.geometry owner.now.pages walk.now.link.count walk.now.link.page ≡ None
        → IfSome (R.image reader.old) (λ image. page.new.bytes ≡ image_page image walk.now.link.page)) }
    ensures reads { OnlyReads R.SnapReader reader.old reader.new (stop_of result) }
{
    let q = walk.link.page;
    if let Some(end) = fault_of_number(owner.geometry, owner.pages, walk.link.count, q) {
        return Ok(Some(end));
    }
    reader.page(PageNo(q), page)?;
    if let Some(end) = fault_of_page(owner.geometry, owner.pages, owner.id, q, page) {
        return Ok(Some(end));
    }
    Ok(met(walk))
}

// How many extents of an interval are in the file.
fn extents_inside(owner: &Owner, iam: &IamView<'_>) -> usize
    requires shape { HasShape owner.now.geometry owner.now.pages }
    requires view { Views (bytes_of iam.now) iam.now }
    requires interval { IsTrue (has_interval owner.now.geometry owner.now.pages (iam_interval (bytes_of iam.now))) }
    ensures { result ≡ inside_count owner.now.geometry owner.now.pages (bytes_of iam.now) }
{
    let size = interval_size(owner.geometry);
    let rest = owner.pages / 8 - size * iam.interval;
    rest.min(size) as usize
}

// Takes what the walk's next page gives, and goes on behind it.
fn take(owner: &Owner, walk: &mut Walk, page: &Page, found: &mut Found) -> Result<(), NoMemory>
    requires shape { HasShape owner.now.geometry owner.now.pages }
    requires object { owner.now.index < ENTRY_COUNT }
    requires size { vec_len walk.old.met ≡ owner.now.pages }
    requires count { walk.old.link.count < owner.now.pages }
    requires extents { vec_len found.old.extents ≡ owner.now.pages / 8 }
    requires goes { looked_at owner.now walk.old page.now.bytes ≡ None }
    ensures taken { OnOk result (TakesPage owner.now walk.old.link (slice_index_or walk.old.firsts (iam_interval page.now.bytes) 0)
        (inside_count owner.now.geometry owner.now.pages page.now.bytes) page.now.bytes found.old found.new) }
    ensures walk { OnOk result (GoesOnBehind walk.old page.now.bytes walk.new) }
    ensures size { OnOk result (vec_len walk.new.met ≡ owner.now.pages) }
    ensures eight { length walk.new.firsts ≡ 8 }
    ensures extents { OnOk result (vec_len found.new.extents ≡ owner.now.pages / 8) }
{
    let Some(iam) = test_iam(page, PageNo(walk.link.page), owner.geometry, owner.pages) else {
        unreachable!()
    };
    let m = iam.interval as usize;
    let count = extents_inside(owner, &iam);
    found.take_page(owner, &walk.link, walk.firsts[m], &iam, count)?;
    walk.go_on(m, iam.next.0);
    Ok(())
}

// Walks along the chain, and reads its pages into one page.
fn follow<R: SnapReader>(
    alloc: Global,
    reader: &mut R,
    owner: &Owner,
    first: u32,
    page: &mut Page,
    found: &mut Found,
) -> Result<(), ReadStop>
    requires count { R.pages reader.old ≡ owner.now.pages }
    requires shape { HasShape owner.now.geometry owner.now.pages }
    requires object { owner.now.index < ENTRY_COUNT }
    requires extents { vec_len found.old.extents ≡ owner.now.pages / 8 }
    ensures read { OnOk result (ForSome (R.image reader.old) (λ image. (row : CatalogRow) → row.id ≡ owner.now.id → row.first_iam ≡ first
        → IsChainRead owner.now.geometry image row owner.now.index found.old found.new)) }
    ensures extents { OnOk result (vec_len found.new.extents ≡ owner.now.pages / 8) }
    ensures reads { OnlyReads R.SnapReader reader.old reader.new (stop_of result) }
{
    let mut walk = Walk::begin(alloc, first, owner.pages)?;
    for count in 0..owner.pages {
        if let Some(end) = look(reader, owner, &walk, page)? {
            note_end(
                &mut found.errors,
                owner.id,
                walk.link.page,
                walk.link.holder,
                page,
                end,
            )?;
            return Ok(());
        }
        take(owner, &mut walk, page, found)?;
    }
    Ok(())
}

/// Reads an object's chain, whose first pointer is `first`. The errors, uses and marks that it gives are
/// added to what was found.
pub fn read_chain<R: SnapReader>(
    alloc: Global,
    reader: &mut R,
    owner: &Owner,
    first: u32,
    found: &mut Found,
) -> Result<(), ReadStop>
    requires count { R.pages reader.old ≡ owner.now.pages }
    requires shape { HasShape owner.now.geometry owner.now.pages }
    requires object { owner.now.index < ENTRY_COUNT }
    requires extents { vec_len found.old.extents ≡ owner.now.pages / 8 }
    ensures read { OnOk result (ForSome (R.image reader.old) (λ image. (row : CatalogRow) → row.id ≡ owner.now.id → row.first_iam ≡ first
        → IsChainRead owner.now.geometry image row owner.now.index found.old found.new)) }
    ensures extents { OnOk result (vec_len found.new.extents ≡ owner.now.pages / 8) }
    ensures reads { OnlyReads R.SnapReader reader.old reader.new (stop_of result) }
{
    let mut page = Page::zeroed(alloc)?;
    follow(alloc, reader, owner, first, &mut page, found)
}
