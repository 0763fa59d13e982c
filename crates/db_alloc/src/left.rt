// The extents that an object marks still, once its pages are given back.
ghost use Rattle.std.specs.Prelude.{◌≡◌, ◌<◌, ◌*◌, ◌/◌, ◌++◌, ◌∷◌, ◌&&◌, [], ℕ, List, IsTrue, true, None, Contains, OnOk, IfOk, IfErr, map, not, All, if◌then◌else◌};
ghost use Rattle.std.specs.List.{list_any};
ghost use Rattle.spec_file.specs.Image.{page};
ghost use Rattle.spec_file.specs.Places as places;
ghost use Rattle.spec_words.specs.Words.{give, sees};
ghost use Rattle.spec_alloc.specs.Freeing as freeing;
ghost use Rattle.spec_alloc.specs.Objects as spec;
ghost use Rattle.db_locks.specs.declared.plan_pages.PageStop.TheVariants as stop;
ghost use Rattle.db_locks.specs.Does.{DoesAfter};
ghost use Rattle.db_alloc.specs.Drops.{HasReached, extents};
ghost use Rattle.db_alloc.specs.Marks.{marks};
ghost use Rattle.db_alloc.specs.Near.{AreNear, whole_extents};
ghost use Rattle.db_alloc.specs.Results.{value_as};
ghost use Rattle.db_alloc.specs.Tables.{numbers, bytes_of};

use crate::Table;
use crate::chain::Chain;
use crate::maps::{is_in_use, reread_pfs};
use crate::marks::{chain_slots, is_marked};
use crate::near::pages_near;
use db_locks::{PageStop, PlanPages};
use pg_base::{ExtentNo, Geometry, Page, PageNo, Resource};
use std::alloc::Global;

// One extent more, at the end, if so.
fn push_extent(left: &mut Vec<ExtentNo>, e: ExtentNo, yes: bool) -> Result<(), PageStop>
    ensures extents { OnOk result (extents left.new.items ≡ extents left.old.items ++ (if yes then e.0 ∷ [] else [])) }
    ensures short { IfErr result (λ e. e ≡ stop.NoMemory) }
{
    if yes && left.push(e).is_err() {
        return Err(PageStop::NoMemory);
    }
    Ok(())
}

// An extent is left where one of these IAM pages marks it and it isn't in use.
fn add_left<P: PlanPages>(
    v: &mut P,
    geometry: Geometry,
    iams: &[Box<Page>],
    e: ExtentNo,
    own: Resource,
    left: &mut Vec<ExtentNo>,
    buffer: &mut Page,
) -> Result<(), PageStop>
    requires geometry { geometry ≡ (P.state v.old).view.shape.geometry }
    requires inside { e.0 < (P.state v.old).view.shape.pages / 8 }
    requires own { (P.state v.old).view.other own ≡ None }
    ensures does { (looked : List ℕ) → (IsTrue (P.state v.old).told → list_any (marks geometry (8 * e.0)) (bytes_of iams.now) ≡ true → Contains looked (places.pfs_page (P.state v.old).view.shape.geometry (8 * e.0))) → DoesAfter looked (P.state v.old) (P.state v.new) (give tt) result }
    ensures left { OnOk result (IsTrue (P.state v.old).told → extents left.new.items ≡ extents left.old.items
        ++ (if list_any (marks geometry (8 * e.0)) (bytes_of iams.now) && not (freeing.is_in_use (P.state v.old).view.shape e.0 (P.state v.old).view) then e.0 ∷ [] else [])) }
    ensures inside { OnOk result ((n : ℕ) → e.0 < n → All (λ x. x < n) (extents left.old.items) → All (λ x. x < n) (extents left.new.items)) }
    ensures view { (P.state v.new).view ≡ (P.state v.old).view }
{
    if !is_marked(geometry, iams, PageNo(8 * e.0)) {
        return Ok(());
    }
    reread_pfs(v, geometry, PageNo(8 * e.0), own, buffer)?;
    let yes = !is_in_use(v, geometry, e, buffer);
    push_extent(left, e, yes)
}

// The extents of a file that has so many pages whose first pages are among these.
fn first_extents(alloc: Global, pages: u32, near: &[u32]) -> Result<Vec<ExtentNo>, PageStop>
    ensures extents { IfOk result (λ found. extents found.items ≡ whole_extents pages near.now) }
    ensures short { IfErr result (λ e. e ≡ stop.NoMemory) }
{
    let mut found = Vec::new(alloc);
    for p in near {
        let e = *p / 8;
        push_extent(&mut found, ExtentNo(e), *p % 8 == 0 && e < pages / 8)?;
    }
    Ok(found)
}

// Extents of the file, rising: all that the chain marks are among them.
fn extents_near(alloc: Global, table: &Table, chain: &Chain) -> Result<Vec<ExtentNo>, PageStop>
    ensures near { IfOk result (λ near. AreNear (table.now.pages / 8) (λ e. list_any (marks table.now.geometry (8 * e)) (bytes_of chain.now.pages.items)) (extents near.items)) }
    ensures short { IfErr result (λ e. e ≡ stop.NoMemory) }
{
    let slots = chain_slots(chain);
    let near = pages_near(alloc, table, &slots, &chain.pages)?;
    first_extents(alloc, table.pages, &near)
}

// Those of these extents that the chain marks and that aren't in use.
fn left_among<P: PlanPages>(
    alloc: Global,
    v: &mut P,
    table: &Table,
    chain: &Chain,
    near: &[ExtentNo],
    own: Resource,
    buffer: &mut Page,
) -> Result<Vec<ExtentNo>, PageStop>
    requires geometry { table.now.geometry ≡ (P.state v.old).view.shape.geometry }
    requires pages { table.now.pages ≡ (P.state v.old).view.shape.pages }
    requires own { (P.state v.old).view.other own ≡ None }
    requires chain { IsTrue (P.state v.old).told → bytes_of chain.now.pages.items ≡ map (page (P.state v.old).view.now) (numbers chain.now.numbers.items) }
    requires near { AreNear (table.now.pages / 8) (λ e. list_any (marks table.now.geometry (8 * e)) (bytes_of chain.now.pages.items)) (extents near.now) }
    ensures does { (looked : List ℕ) → (IsTrue (P.state v.old).told → HasReached looked (P.state v.old).view (numbers chain.now.numbers.items)) → DoesAfter looked (P.state v.old) (P.state v.new) (sees (spec.left_extents (P.state v.old).view.shape (numbers chain.now.numbers.items))) (value_as (λ left. extents left.items) result) }
    ensures inside { IfOk result (λ left. All (λ e. e < (P.state v.old).view.shape.pages / 8) (extents left.items)) }
    ensures view { (P.state v.new).view ≡ (P.state v.old).view }
{
    let mut left = Vec::new(alloc);
    for e in near {
        add_left(v, table.geometry, &chain.pages, *e, own, &mut left, buffer)?;
    }
    Ok(left)
}

/// The extents that the chain marks and that aren't in use, rising. Their PFS pages, which the statement has
/// reached, are read once more.
pub(crate) fn left_extents<P: PlanPages>(
    alloc: Global,
    v: &mut P,
    table: &Table,
    chain: &Chain,
    own: Resource,
    buffer: &mut Page,
) -> Result<Vec<ExtentNo>, PageStop>
    requires geometry { table.now.geometry ≡ (P.state v.old).view.shape.geometry }
    requires pages { table.now.pages ≡ (P.state v.old).view.shape.pages }
    requires own { (P.state v.old).view.other own ≡ None }
    requires chain { IsTrue (P.state v.old).told → bytes_of chain.now.pages.items ≡ map (page (P.state v.old).view.now) (numbers chain.now.numbers.items) }
    ensures does { (looked : List ℕ) → (IsTrue (P.state v.old).told → HasReached looked (P.state v.old).view (numbers chain.now.numbers.items)) → DoesAfter looked (P.state v.old) (P.state v.new) (sees (spec.left_extents (P.state v.old).view.shape (numbers chain.now.numbers.items))) (value_as (λ left. extents left.items) result) }
    ensures inside { IfOk result (λ left. All (λ e. e < (P.state v.old).view.shape.pages / 8) (extents left.items)) }
    ensures view { (P.state v.new).view ≡ (P.state v.old).view }
{
    let near = extents_near(alloc, table, chain)?;
    left_among(alloc, v, table, chain, &near, own, buffer)
}
