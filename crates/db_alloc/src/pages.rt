// The pages of a table.
ghost use Rattle.std.specs.Prelude.{◌≡◌, ◌<◌, ◌||◌, ◌++◌, ◌∷◌, [], IsTrue, ◌+◌, ◌≤◌, ℕ, IfOk, OnOk, filter, length, if◌then◌else◌, All};
ghost use Rattle.spec_chain.specs.Uses as uses;
ghost use Rattle.spec_words.specs.Tables as spec;
ghost use Rattle.db_cat.specs.Rows.{row_of};
ghost use Rattle.db_locks.specs.Does.{Does};
ghost use Rattle.db_alloc.specs.Marks.{is_in_slot};
ghost use Rattle.db_alloc.specs.Results.{value_as};
ghost use Rattle.db_alloc.specs.Tables.{numbers, byte_looked};

use crate::Table;
use crate::buffer::page_room;
use crate::chain::read_chain;
use crate::list::push_if;
use crate::look::look_byte;
use crate::marks::{byte_pages, chain_slots, is_single};
use db_locks::{PageStop, PlanPages};
use pg_base::{Geometry, Page, PageNo};
use pg_pfs::is_allocated;
use std::alloc::Global;

// Reads the PFS byte of page p, which is the object's if it is in one of these slots or allocated.
fn add_page<P: PlanPages>(
    v: &mut P,
    geometry: Geometry,
    slots: &[PageNo],
    p: PageNo,
    found: &mut Vec<PageNo>,
    buffer: &mut Page,
) -> Result<(), PageStop>
    requires geometry { geometry ≡ (P.state v.old).view.shape.geometry }
    requires inside { p.0 < (P.state v.old).view.shape.pages }
    ensures does { Does (P.state v.old) (P.state v.new) (byte_looked (P.state v.old).view.shape p.0) result }
    ensures told { OnOk result (IsTrue (P.state v.old).told → numbers found.new.items ≡ numbers found.old.items
        ++ (if is_in_slot (numbers slots.now) p.0 || uses.is_allocated (P.state v.old).view.shape.geometry (P.state v.old).view.now p.0 then p.0 ∷ [] else [])) }
    ensures inside { OnOk result ((n : ℕ) → p.0 < n → All (λ q. q < n) (numbers found.old.items) → All (λ q. q < n) (numbers found.new.items)) }
    ensures few { OnOk result (length found.new.items ≤ length found.old.items + 1) }
    ensures view { (P.state v.new).view ≡ (P.state v.old).view }
{
    let byte = look_byte(v, geometry, p, buffer)?;
    let yes = is_single(slots, p) || is_allocated(byte);
    push_if(found, p, yes)
}

/// Reads the PFS bytes of these pages. The object's are those that are in one of these slots or allocated.
pub(crate) fn read_pages<P: PlanPages>(
    alloc: Global,
    v: &mut P,
    table: &Table,
    slots: &[PageNo],
    pages: &[PageNo],
    buffer: &mut Page,
) -> Result<Vec<PageNo>, PageStop>
    requires geometry { table.now.geometry ≡ (P.state v.old).view.shape.geometry }
    requires pages { table.now.pages ≡ (P.state v.old).view.shape.pages }
    requires inside { All (λ p. p < table.now.pages) (numbers pages.now) }
    ensures does { Does (P.state v.old) (P.state v.new) (spec.bytes_read (P.state v.old).view.shape (numbers pages.now)) (value_as (λ found. tt) result) }
    ensures told { IfOk result (λ found. IsTrue (P.state v.old).told → numbers found.items
        ≡ filter (λ p. is_in_slot (numbers slots.now) p || uses.is_allocated (P.state v.old).view.shape.geometry (P.state v.old).view.now p) (numbers pages.now)) }
    ensures inside { IfOk result (λ found. All (λ p. p < table.now.pages) (numbers found.items)) }
    ensures few { IfOk result (λ found. length found.items ≤ length pages.now) }
    ensures view { (P.state v.new).view ≡ (P.state v.old).view }
{
    let mut found = Vec::new(alloc);
    for p in pages {
        add_page(v, table.geometry, slots, *p, &mut found, buffer)?;
    }
    Ok(found)
}

/// The allocated pages of a table, rising.
pub fn pages_of<P: PlanPages>(
    alloc: Global,
    v: &mut P,
    table: &Table,
) -> Result<Vec<PageNo>, PageStop>
    requires geometry { table.now.geometry ≡ (P.state v.old).view.shape.geometry }
    requires pages { table.now.pages ≡ (P.state v.old).view.shape.pages }
    ensures does { Does (P.state v.old) (P.state v.new) (spec.table_pages (P.state v.old).view.shape (row_of table.now.row)) (value_as (λ found. numbers found.items) result) }
    ensures inside { IfOk result (λ found. All (λ p. p < table.now.pages) (numbers found.items)) }
    ensures few { IfOk result (λ found. length found.items ≤ table.now.pages) }
{
    let mut buffer = page_room(alloc)?;
    let chain = read_chain(alloc, v, table)?;
    let slots = chain_slots(&chain);
    let pages = byte_pages(alloc, table, &chain)?;
    read_pages(alloc, v, table, &slots, &pages, &mut buffer)
}
