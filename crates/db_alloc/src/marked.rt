// A page of a marked extent is found, and taken.
ghost use Rattle.std.specs.Prelude.{◌≡◌, ◌<◌, ◌&&◌, ◌++◌, ℕ, List, filter, All, true, IsTrue, IfOk, IfSome, None, Contains};
ghost use Rattle.std.specs.Option.{option_map};
ghost use Rattle.std.specs.List.{list_any};
ghost use Rattle.spec_file.specs.Places.{pfs_page};
ghost use Rattle.spec_file.specs.Roles.{is_ordinary};
ghost use Rattle.spec_words.specs.Words.{give, sees};
ghost use Rattle.spec_alloc.specs.ObjectPages as spec;
ghost use Rattle.spec_alloc.specs.Search as search;
ghost use Rattle.db_locks.specs.Does.{DoesAfter};
ghost use Rattle.db_alloc.specs.Maps.{IsOwnable};
ghost use Rattle.db_alloc.specs.Marks.{marks};
ghost use Rattle.db_alloc.specs.Objects.{HasChain, WasRead};
ghost use Rattle.db_alloc.specs.Results.{value_as};
ghost use Rattle.db_alloc.specs.Tables.{numbers, bytes_of};

use crate::Table;
use crate::chain::Chain;
use crate::look::reread_byte;
use crate::maps::{is_spare, reread_pfs};
use crate::marks::{chain_slots, is_marked};
use crate::near::pages_near;
use crate::object::take_page;
use db_locks::{PageStop, PlanPages, set_pfs_byte};
use pg_base::{Geometry, Page, PageNo, Resource};
use spec_log::byte_with_bit;
use std::alloc::Global;

// Whether page p is of an extent that one of these IAM pages marks, and can be had. Its PFS page, which the
// statement has reached, is read once more, under a resource that nobody else holds.
fn can_be_had<P: PlanPages>(
    v: &mut P,
    geometry: Geometry,
    iams: &[Box<Page>],
    p: PageNo,
    own: Resource,
    buffer: &mut Page,
) -> Result<bool, PageStop>
    requires geometry { geometry ≡ (P.state v.old).view.shape.geometry }
    requires inside { p.0 < (P.state v.old).view.shape.pages }
    requires own { (P.state v.old).view.other own ≡ None }
    ensures does { (looked : List ℕ) → (IsTrue (P.state v.old).told → list_any (marks geometry p.0) (bytes_of iams.now) ≡ true → Contains looked (pfs_page (P.state v.old).view.shape.geometry p.0)) → DoesAfter looked (P.state v.old) (P.state v.new) (give {A = Unit {0}} tt) (value_as (λ had. tt) result) }
    ensures had { IfOk result (λ had. IsTrue (P.state v.old).told → had ≡ (list_any (marks geometry p.0) (bytes_of iams.now) && search.is_spare (P.state v.old).view.shape (P.state v.old).view p.0)) }
    ensures ordinary { IfOk result (λ had. had ≡ true → is_ordinary (P.state v.old).view.shape.geometry p.0 ≡ true) }
    ensures view { (P.state v.new).view ≡ (P.state v.old).view }
{
    if !is_marked(geometry, iams, p) {
        return Ok(false);
    }
    reread_pfs(v, geometry, p, own, buffer)?;
    Ok(is_spare(v, geometry, p, buffer))
}

// The first of these pages that is of an extent that one of these IAM pages marks, and can be had.
fn first_had<P: PlanPages>(
    v: &mut P,
    geometry: Geometry,
    iams: &[Box<Page>],
    near: &[u32],
    own: Resource,
    buffer: &mut Page,
) -> Result<Option<PageNo>, PageStop>
    requires geometry { geometry ≡ (P.state v.old).view.shape.geometry }
    requires inside { All (λ p. p < (P.state v.old).view.shape.pages) near.now }
    requires own { (P.state v.old).view.other own ≡ None }
    ensures does { (looked : List ℕ) → (IsTrue (P.state v.old).told → (p : ℕ) → p < (P.state v.old).view.shape.pages → list_any (marks geometry p) (bytes_of iams.now) ≡ true → Contains looked (pfs_page (P.state v.old).view.shape.geometry p)) → DoesAfter looked (P.state v.old) (P.state v.new) (give {A = Unit {0}} tt) (value_as (λ found. tt) result) }
    ensures first { IfOk result (λ found. IsTrue (P.state v.old).told → option_map (λ p. p.0) found ≡ search.first_in (filter (λ p. list_any (marks geometry p) (bytes_of iams.now) && search.is_spare (P.state v.old).view.shape (P.state v.old).view p) near.now)) }
    ensures ownable { IfOk result (λ found. IfSome found (λ p. IsOwnable (P.state v.old).view.shape p.0)) }
    ensures view { (P.state v.new).view ≡ (P.state v.old).view }
{
    for p in near {
        if can_be_had(v, geometry, iams, PageNo(*p), own, buffer)? {
            return Ok(Some(PageNo(*p)));
        }
    }
    Ok(None)
}

// The lowest page of the file that is of an extent that the chain marks, and can be had.
fn lowest_marked<P: PlanPages>(
    alloc: Global,
    v: &mut P,
    table: &Table,
    chain: &Chain,
    own: Resource,
    buffer: &mut Page,
) -> Result<Option<PageNo>, PageStop>
    requires geometry { table.now.geometry ≡ (P.state v.old).view.shape.geometry }
    requires pages { table.now.pages ≡ (P.state v.old).view.shape.pages }
    requires own { (P.state v.old).view.other own ≡ None }
    requires chain { HasChain chain.now (P.state v.old) }
    ensures does { (looked : List ℕ) → (IsTrue (P.state v.old).told → WasRead looked (P.state v.old).view (numbers chain.now.numbers.items)) → DoesAfter looked (P.state v.old) (P.state v.new) (sees (spec.lowest_marked (P.state v.old).view.shape (numbers chain.now.numbers.items))) (value_as (option_map (λ p. p.0)) result) }
    ensures ownable { IfOk result (λ found. IfSome found (λ p. IsOwnable (P.state v.old).view.shape p.0)) }
    ensures view { (P.state v.new).view ≡ (P.state v.old).view }
{
    let slots = chain_slots(chain);
    let near = pages_near(alloc, table, &slots, &chain.pages)?;
    first_had(v, table.geometry, &chain.pages, &near, own, buffer)
}

/// Page p of a marked extent becomes allocated, and is taken. Its PFS page was reached.
pub(crate) fn take_marked<P: PlanPages>(
    v: &mut P,
    geometry: Geometry,
    chain: &[PageNo],
    path: &[PageNo],
    p: PageNo,
    buffer: &mut Page,
) -> Result<(), PageStop>
    requires geometry { geometry ≡ (P.state v.old).view.shape.geometry }
    requires inside { p.0 < (P.state v.old).view.shape.pages }
    ensures { (looked : List ℕ) → (IsTrue (P.state v.old).told → Contains looked (pfs_page (P.state v.old).view.shape.geometry p.0)) → DoesAfter looked (P.state v.old) (P.state v.new) (spec.marked_page_taken (P.state v.old).view.shape (numbers chain.now ++ numbers path.now) p.0) (value_as (λ done. p.0) result) }
{
    let byte = reread_byte(v, geometry, p, buffer)?;
    set_pfs_byte(v, geometry, p, byte_with_bit(byte, 6, 1), buffer)?;
    take_page(v, p, chain, path, buffer)
}

/// The lowest page that can be had of an extent that the chain marks.
pub(crate) fn marked_page<P: PlanPages>(
    alloc: Global,
    v: &mut P,
    table: &Table,
    chain: &Chain,
    path: &[PageNo],
    own: Resource,
    buffer: &mut Page,
) -> Result<Option<PageNo>, PageStop>
    requires geometry { table.now.geometry ≡ (P.state v.old).view.shape.geometry }
    requires pages { table.now.pages ≡ (P.state v.old).view.shape.pages }
    requires own { (P.state v.old).view.other own ≡ None }
    requires chain { HasChain chain.now (P.state v.old) }
    ensures does { (looked : List ℕ) → (IsTrue (P.state v.old).told → WasRead looked (P.state v.old).view (numbers chain.now.numbers.items)) → DoesAfter looked (P.state v.old) (P.state v.new) (spec.marked_page (P.state v.old).view.shape (numbers chain.now.numbers.items) (numbers path.now)) (value_as (option_map (λ p. p.0)) result) }
    ensures ownable { IfOk result (λ found. IfSome found (λ p. IsOwnable (P.state v.old).view.shape p.0)) }
{
    match lowest_marked(alloc, v, table, chain, own, buffer)? {
        Some(p) => {
            take_marked(v, table.geometry, &chain.numbers, path, p, buffer)?;
            Ok(Some(p))
        }
        None => Ok(None),
    }
}
