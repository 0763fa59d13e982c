// Views in memory over files of six extents and of two intervals, and heap 1 in them, which gets a page or gives one
// back.
ghost use Rattle.std.specs.Prelude.{◌≡◌, ℕ, IfOk, None};
ghost use Rattle.spec_file.specs.declared.data.Resource.TheVariants as resource;
ghost use Rattle.spec_file.specs.declared.geometry.Geometry.TheVariants.{Small};
ghost use Rattle.db_locks.specs.Memory.{state_of};

use crate::changes::{Change, are_changes};
use crate::made::{locks_on, pages_in};
use db_alloc::{AllocStop, Table, find_table};
use db_locks::{MemView, PageStop, PlanPages};
use net_changes::{net_changes, net_takes};
use pg_base::{Geometry, PageNo, Resource, Tran};
use rows_files::pieces::Piece::{Bytes, Chain, Heap, Marks, Pfs, Slots};
use rows_files::pieces::{New, ONLY, Piece};
use spec_script::Name;
use std::alloc::Global;
use std::test::Fail;

/// Heap 1, whose chain is page 8. Its slots hold pages 10 to 17, of extents 1 and 2, and it marks extent 3, of which
/// page 24 is allocated. Extents 4 and 5 are free; of the mixed extents only the second has pages left.
pub const FULL: &[Piece] = &[
    Heap(1, b't', 8),
    Chain(8, ONLY),
    Slots(8, &[10, 11, 12, 13, 14, 15, 16, 17]),
    Marks(8, 0b1000),
    Bytes(1, 106, &[0x60; 8]),
    Pfs(8, 0x70),
    Pfs(24, 0x40),
    Bytes(2, 96, &[0b110000]),
    Bytes(3, 96, &[0b100]),
];

/// Why a page is neither given nor given back: transaction 2 holds a resource, a page is bad, or none is to be had.
#[derive(Clone, Copy)]
pub enum Wanted {
    Held(Resource),
    Bad(u32),
    Full,
}

/// The stop that is wanted.
pub fn stop_of(wanted: Wanted) -> AllocStop {
    match wanted {
        Wanted::Held(resource) => AllocStop::Page(PageStop::Held {
            resource,
            by: Tran(2),
        }),
        Wanted::Bad(p) => AllocStop::Page(PageStop::Bad(PageNo(p))),
        Wanted::Full => AllocStop::Full,
    }
}

/// What is expected of the view in the end: which cells differ, and what was taken.
#[derive(Drop)]
pub struct Left {
    pub changes: &'static [Change],
    pub takes: &'static [Resource],
}

/// A view of a file of six extents with these pieces, of which transaction 2 holds these resources.
pub fn small_view(alloc: Global, parts: &[&[Piece]], held: &[Resource]) -> Result<MemView, Fail>
    ensures geometry { IfOk result (λ v. (state_of v).view.shape.geometry ≡ Small) }
    ensures pages { IfOk result (λ v. (state_of v).view.shape.pages ≡ 48) }
{
    let pages = pages_in(alloc, New::Small(48), 48, parts)?;
    if pages.len() != 48 {
        return Err(Fail::from("48 pages"));
    }
    Ok(MemView::begin(alloc, Geometry::Small, 1, pages, locks_on(alloc, held)?)?)
}

/// A view of a file of two intervals, likewise.
pub fn large_view(alloc: Global, parts: &[&[Piece]], held: &[Resource]) -> Result<MemView, Fail>
    ensures geometry { IfOk result (λ v. (state_of v).view.shape.geometry ≡ Small) }
    ensures pages { IfOk result (λ v. (state_of v).view.shape.pages ≡ 1024) }
{
    let pages = pages_in(alloc, New::TwoIntervals, 1024, parts)?;
    if pages.len() != 1024 {
        return Err(Fail::from("1024 pages"));
    }
    Ok(MemView::begin(alloc, Geometry::Small, 1, pages, locks_on(alloc, held)?)?)
}

/// Heap t of a view of so many pages.
pub fn heap_on<P: PlanPages>(alloc: Global, v: &mut P, pages: u32) -> Result<Table, Fail>
    ensures geometry { IfOk result (λ t. t.geometry ≡ Small) }
    ensures pages { IfOk result (λ t. t.pages ≡ pages) }
    ensures own { IfOk result (λ t. (P.state v.new).view.other (resource.Table t.row.id) ≡ None) }
    ensures shape { IfOk result (λ t. (P.state v.new).view.shape ≡ (P.state v.old).view.shape) }
{
    let name = Name::from_string(String::from_str(alloc, "t")?);
    match find_table(alloc, v, &name) {
        Err(_) => Err(Fail::from("no heap t")),
        Ok(row) => {
            if v.holder(Resource::Table(row.id)).is_some() {
                return Err(Fail::from("the table is held"));
            }
            Ok(Table {
                row,
                geometry: Geometry::Small,
                pages,
            })
        }
    }
}

/// The view has changed so.
pub fn expect_left<P: PlanPages>(
    alloc: Global,
    name: &str,
    v: &P,
    pages: u32,
    left: &Left,
) -> Result<(), Fail>
    requires geometry { (P.state v.now).view.shape.geometry ≡ Small }
    requires pages { (P.state v.now).view.shape.pages ≡ pages }
{
    let changes = net_changes(alloc, v, Geometry::Small, pages)?;
    let takes = net_takes(alloc, v, Geometry::Small, pages)?;
    if !are_changes(&changes, left.changes) {
        return Err(Fail::new(format_args!("{name}: changes")));
    }
    if takes.as_slice() != left.takes {
        return Err(Fail::new(format_args!("{name}: {takes:?}")));
    }
    Ok(())
}
