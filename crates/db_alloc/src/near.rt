// Where the pages of a table may be: its slots, and the extents that its chain marks.
ghost use Rattle.std.specs.Prelude.{◌≡◌, ◌↔◌, ◌<◌, ◌≤◌, ◌+◌, ◌*◌, ◌^◌, ◌/◌, ◌==◌, ℕ, OnOk, IfOk, IfErr, Contains, true};
ghost use Rattle.std.specs.Int.{bit_at};
ghost use Rattle.std.specs.List.{list_any};
ghost use Rattle.std.specs.List.Sorted.{IsStrictlyIncreasing};
ghost use Rattle.spec_file.specs.declared.sizes.TheConstants.{BIT_COUNT};
ghost use Rattle.db_locks.specs.declared.plan_pages.PageStop.TheVariants as stop;
ghost use Rattle.db_alloc.specs.Near.{Includes, IsInByte, IsInBytes, AreNear};
ghost use Rattle.db_alloc.specs.Marks as spec;
ghost use Rattle.db_alloc.specs.Tables.{numbers, bytes_of};

use crate::Table;
use db_locks::PageStop;
use pg_base::{Geometry, MAPS_START, NoMemory, Page, PageNo, u32_at};
use pg_geom::{interval_pages, interval_size};
use std::alloc::Global;

// Bit n of a byte is set.
fn is_set(byte: u8, n: u32) -> bool
    requires { n < 8 }
    ensures { result ≡ (bit_at byte n == 1) }
{
    (byte >> n) & 1 == 1
}

// The pages of extent e in a file that has so many.
fn push_extent(found: &mut Vec<u32>, e: u32, pages: u32) -> Result<(), NoMemory>
    ensures { OnOk result (Includes pages (λ p. p / 8 ≡ e) found.old.items found.new.items) }
{
    if e > pages / 8 {
        return Ok(());
    }
    let first = 8 * e;
    for p in first..first + (pages - first).min(8) {
        found.push(p)?;
    }
    Ok(())
}

// The pages of the extents that a byte of marks has; its lowest bit is that of extent e.
fn push_byte(found: &mut Vec<u32>, byte: u8, e: u32, pages: u32) -> Result<(), NoMemory>
    requires { e + 8 ≤ 2 ^ 32 }
    ensures { OnOk result (Includes pages (IsInByte byte e) found.old.items found.new.items) }
{
    if byte == 0 {
        return Ok(());
    }
    for n in 0..8u32 {
        if is_set(byte, n) {
            push_extent(found, e + n, pages)?;
        }
    }
    Ok(())
}

// The pages of the extents that the first bytes of marks have; the lowest bit is that of extent `first`.
fn push_bytes(
    found: &mut Vec<u32>,
    iam: &Page,
    first: u32,
    count: u32,
    pages: u32,
) -> Result<(), NoMemory>
    requires count { 8 * count ≤ BIT_COUNT }
    requires first { first + BIT_COUNT ≤ 2 ^ 32 }
    ensures { OnOk result (Includes pages (IsInBytes iam.now.bytes first count) found.old.items found.new.items) }
{
    for n in 0..count {
        push_byte(found, iam.bytes[136 + n as usize], first + 8 * n, pages)?;
    }
    Ok(())
}

// The pages of the extents that an IAM page marks.
fn push_marked(found: &mut Vec<u32>, g: Geometry, iam: &Page, pages: u32) -> Result<(), NoMemory>
    ensures { OnOk result (Includes pages (λ p. spec.marks g p iam.now.bytes ≡ true) found.old.items found.new.items) }
{
    let interval = u32_at(&iam.bytes, MAPS_START);
    if interval > pages / interval_pages(g) {
        return Ok(());
    }
    let size = interval_size(g);
    push_bytes(found, iam, interval * size, size / 8, pages)
}

// The pages of the extents that these IAM pages mark.
fn push_chain(
    found: &mut Vec<u32>,
    g: Geometry,
    iams: &[Box<Page>],
    pages: u32,
) -> Result<(), NoMemory>
    ensures { OnOk result (Includes pages (λ p. list_any (spec.marks g p) (bytes_of iams.now) ≡ true) found.old.items found.new.items) }
{
    for iam in iams {
        push_marked(found, g, iam, pages)?;
    }
    Ok(())
}

// The pages that these slots hold.
fn push_slots(found: &mut Vec<u32>, slots: &[PageNo], pages: u32) -> Result<(), NoMemory>
    ensures { OnOk result (Includes pages (λ p. spec.is_in_slot (numbers slots.now) p ≡ true) found.old.items found.new.items) }
{
    for q in slots {
        if q.0 < pages {
            found.push(q.0)?;
        }
    }
    Ok(())
}

// The numbers rising, each once.
fn in_order(found: Vec<u32>) -> Vec<u32>
    ensures rise { IsStrictlyIncreasing result.items }
    ensures same { (p : ℕ) → Contains result.items p ↔ Contains found.items p }
{
    let mut found = found;
    found.sort_unstable();
    found.dedup();
    found
}

// All of these pages, in order.
fn near(
    alloc: Global,
    table: &Table,
    slots: &[PageNo],
    iams: &[Box<Page>],
) -> Result<Vec<u32>, NoMemory>
    requires { numbers slots.now ≡ spec.first_slots (bytes_of iams.now) }
    ensures { IfOk result (λ near. AreNear table.now.pages (spec.has_byte table.now.geometry (bytes_of iams.now)) near.items) }
{
    let mut found = Vec::new(alloc);
    push_slots(&mut found, slots, table.pages)?;
    push_chain(&mut found, table.geometry, iams, table.pages)?;
    Ok(in_order(found))
}

/// Pages of the file, rising: all that are in one of these slots, or in an extent that one of these IAM
/// pages marks, are among them.
pub(crate) fn pages_near(
    alloc: Global,
    table: &Table,
    slots: &[PageNo],
    iams: &[Box<Page>],
) -> Result<Vec<u32>, PageStop>
    requires { numbers slots.now ≡ spec.first_slots (bytes_of iams.now) }
    ensures near { IfOk result (λ near. AreNear table.now.pages (spec.has_byte table.now.geometry (bytes_of iams.now)) near.items) }
    ensures short { IfErr result (λ e. e ≡ stop.NoMemory) }
{
    match near(alloc, table, slots, iams) {
        Ok(near) => Ok(near),
        Err(NoMemory) => Err(PageStop::NoMemory),
    }
}
