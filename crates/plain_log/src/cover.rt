//! What covers a change: the guard of each bit and byte of a file, and whether a transaction holds it. The
//! items stand in the log's order, the oldest first.
ghost use Rattle.std.specs.Prelude.{◌≡◌, ℕ, ◌+◌, ◌<◌, ◌≤◌, ◌^◌, ◌↔◌, IsTrue, reverse};
ghost use Rattle.spec_file.specs.Places as places;
ghost use Rattle.spec_file.specs.declared.role.Role.TheVariants as role_word;
ghost use Rattle.spec_log.specs.declared.item.Cell.TheVariants as cell_word;
ghost use Rattle.spec_log.specs.Cover as spec;

use crate::holders::holds;
use pg_geom::{interval_size, pfs_span, role_of};
use spec_file::{ExtentNo, Geometry, MAPS_START, PageNo, Resource, Role};
use spec_log::{Cell, Record};

// Where the bytes of a PFS page begin, as a number of 64 bits.
const START: u64 = MAPS_START as u64;

/// The extent that bit n of a map page speaks of.
fn extent_at(g: Geometry, p: PageNo, n: u32) -> u64
    ensures { result ≡ spec.extent_at g p.0 n }
{
    let size = u64::from(interval_size(g));
    size * (u64::from(p.0) / (8 * size)) + u64::from(n)
}

/// The page that the byte at an offset of a PFS page speaks of.
fn paged_at(p: PageNo, at: u64) -> u64
    requires { at + 2 ^ 32 < 2 ^ 64 }
    ensures { result ≡ spec.paged_at p.0 at }
{
    let first = if p.0 == 1 { 0 } else { u64::from(p.0) };
    first + at.saturating_sub(START)
}

/// The guard of bit n of a GAM or SGAM page, none where the file has no such extent.
fn extent_guard(g: Geometry, pages: u32, p: PageNo, n: u32) -> Option<Resource>
    ensures { result ≡ spec.extent_guard g pages p.0 n }
{
    let extent = extent_at(g, p, n);
    if n < interval_size(g) && extent < u64::from(pages / 8) {
        Some(Resource::Extent(ExtentNo(extent as u32)))
    } else {
        None
    }
}

/// The guard of the byte at an offset of a PFS page, none where the file has no page of which it speaks.
fn pfs_guard(g: Geometry, pages: u32, p: PageNo, at: u64) -> Option<Resource>
    requires { at + 2 ^ 32 < 2 ^ 64 }
    ensures { result ≡ spec.pfs_guard g pages p.0 at }
{
    let paged = paged_at(p, at);
    if START <= at && at - START < u64::from(pfs_span(g)) && paged < u64::from(pages) {
        Some(Resource::Byte(PageNo(paged as u32)))
    } else {
        None
    }
}

/// The guard of bit n of page p, none where nobody may turn it.
pub fn bit_guard(g: Geometry, pages: u32, p: PageNo, n: u32) -> Option<Resource>
    requires { pages ≤ places.page_limit g }
    ensures { result ≡ spec.bit_guard g pages p.0 n }
{
    if p.0 >= pages {
        return None;
    }
    bit_guard_by(role_of(g, p), g, pages, p, n)
}

/// The guard of bit n of a page of this role.
fn bit_guard_by(role: Role, g: Geometry, pages: u32, p: PageNo, n: u32) -> Option<Resource>
    ensures { result ≡ spec.bit_guard_by role g pages p.0 n }
{
    match role {
        Role::Gam | Role::Sgam => extent_guard(g, pages, p, n),
        _ => None,
    }
}

/// The guard of the byte at an offset of page p, none where nobody may change it.
pub fn byte_guard(g: Geometry, pages: u32, p: PageNo, at: u64) -> Option<Resource>
    requires in_limit { pages ≤ places.page_limit g }
    requires at_fits { at + 2 ^ 32 < 2 ^ 64 }
    ensures { result ≡ spec.byte_guard g pages p.0 at }
{
    if p.0 >= pages {
        return None;
    }
    byte_guard_by(role_of(g, p), g, pages, p, at)
}

/// The guard of the byte at an offset of a page of this role.
fn byte_guard_by(role: Role, g: Geometry, pages: u32, p: PageNo, at: u64) -> Option<Resource>
    requires { at + 2 ^ 32 < 2 ^ 64 }
    ensures { result ≡ spec.byte_guard_by role g pages p.0 at }
{
    match role {
        Role::Pfs => pfs_guard(g, pages, p, at),
        Role::Boot => Some(Resource::Catalog),
        Role::Ordinary => Some(Resource::Page(p)),
        _ => None,
    }
}

/// There is a guard, and the transaction holds it.
fn holds_guard(items: &[Record], t: u64, guard: Option<Resource>) -> bool
    ensures { IsTrue result ↔ spec.HoldsGuard (reverse items.now) t guard }
{
    match guard {
        Some(r) => holds(items, t, r),
        None => false,
    }
}

/// The transaction holds the guard of each of so many bytes of a page from an offset.
fn holds_bytes(
    g: Geometry,
    pages: u32,
    items: &[Record],
    t: u64,
    p: PageNo,
    off: u64,
    size: u64,
) -> bool
    requires in_limit { pages ≤ places.page_limit g }
    requires end_fits { off + size + 2 ^ 32 < 2 ^ 64 }
    ensures { IsTrue result ↔ ((i : ℕ) → i < size → spec.HoldsGuard (reverse items.now) t (spec.byte_guard g pages p.0 (off + i))) }
{
    for i in 0..size {
        if !holds_guard(items, t, byte_guard(g, pages, p, off + i)) {
            return false;
        }
    }
    true
}

/// Of a PFS page, so many bytes from an offset speak of pages of one extent.
fn is_of_one_extent(role: Role, p: PageNo, off: u64, size: u64) -> bool
    requires { off + size + 2 ^ 32 < 2 ^ 64 }
    ensures { IsTrue result ↔ spec.IsOfOneExtent role p.0 off size }
{
    role != Role::Pfs || speak_of_one_extent(p, off, size)
}

/// So many bytes of a PFS page from an offset speak of pages of one extent.
fn speak_of_one_extent(p: PageNo, off: u64, size: u64) -> bool
    requires { off + size + 2 ^ 32 < 2 ^ 64 }
    ensures { IsTrue result ↔ spec.IsOfOneExtent role_word.Pfs p.0 off size }
{
    let extent = paged_at(p, off) / 8;
    for i in 0..size {
        if paged_at(p, off + i) / 8 != extent {
            return false;
        }
    }
    true
}

/// What the transaction holds covers so many bytes of a page from an offset.
fn covers_bytes(
    g: Geometry,
    pages: u32,
    items: &[Record],
    t: u64,
    p: PageNo,
    off: u32,
    size: u64,
) -> bool
    requires in_limit { pages ≤ places.page_limit g }
    requires size_fits { size < 2 ^ 63 }
    ensures { IsTrue result ↔ spec.IsCovered g pages (reverse items.now) t (cell_word.Bytes p off) size }
{
    // Past the file's end nothing has a guard.
    if p.0 >= pages {
        return size == 0;
    }
    let off = u64::from(off);
    holds_bytes(g, pages, items, t, p, off, size) && is_of_one_extent(role_of(g, p), p, off, size)
}

/// What the transaction holds covers the cell, of so many bytes.
pub fn is_covered(g: Geometry, pages: u32, items: &[Record], t: u64, cell: Cell, size: u64) -> bool
    requires in_limit { pages ≤ places.page_limit g }
    requires size_fits { size < 2 ^ 63 }
    ensures { IsTrue result ↔ spec.IsCovered g pages (reverse items.now) t cell size }
{
    match cell {
        Cell::Bytes { page, off } => covers_bytes(g, pages, items, t, page, off, size),
        Cell::Bit { page, n } => holds_guard(items, t, bit_guard(g, pages, page, n)),
    }
}
