// The net changes of a statement.
ghost use Rattle.std.specs.Prelude.{◌≡◌, ◌++◌, IsTrue, IfOk, OnOk};
ghost use Rattle.spec_words.specs.NetChanges.{changes_of};
ghost use Rattle.spec_words.specs.Takes.{changes_at};

use crate::maps::{Map, add_byte_runs, add_map_bits};
use crate::pages::{add_boot, add_pages};
use crate::pair::{Buffers, buffers_room};
use db_locks::PlanPages;
use pg_base::{Geometry, NoMemory};
use spec_plan::Planned;
use std::alloc::Global;

// Adds what is shown otherwise than before, in the order of the log.
fn add_changes<P: PlanPages>(
    alloc: Global,
    v: &P,
    geometry: Geometry,
    pages: u32,
    changes: &mut Vec<Planned>,
    buffers: &mut Buffers,
) -> Result<(), NoMemory>
    requires geometry { geometry ≡ (P.state v.now).view.shape.geometry }
    requires pages { pages ≡ (P.state v.now).view.shape.pages }
    ensures { OnOk result (IsTrue (P.state v.now).told → changes.new.items ≡ changes.old.items ++ changes_of (P.state v.now).view.shape (P.state v.now).first (P.state v.now).shown) }
{
    add_map_bits(
        alloc,
        v,
        geometry,
        pages,
        Map::Gam,
        changes,
        &mut buffers.page,
    )?;
    add_map_bits(
        alloc,
        v,
        geometry,
        pages,
        Map::Sgam,
        changes,
        &mut buffers.page,
    )?;
    add_byte_runs(alloc, v, geometry, pages, changes, &mut buffers.page)?;
    add_pages(alloc, v, geometry, true, changes, buffers)?;
    add_boot(alloc, v, changes, &mut buffers.page)?;
    add_pages(alloc, v, geometry, false, changes, buffers)
}

/// The net changes of the statement that was planned on this view, in the order and cut of the log. Only the
/// pages that were put for it are looked at.
pub fn net_changes<P: PlanPages>(
    alloc: Global,
    v: &P,
    geometry: Geometry,
    pages: u32,
) -> Result<Vec<Planned>, NoMemory>
    requires geometry { geometry ≡ (P.state v.now).view.shape.geometry }
    requires pages { pages ≡ (P.state v.now).view.shape.pages }
    ensures { IfOk result (λ changes. IsTrue (P.state v.now).told → changes.items ≡ changes_at (P.state v.now).view) }
{
    let mut buffers = buffers_room(alloc)?;
    let mut changes = Vec::new(alloc);
    add_changes(alloc, v, geometry, pages, &mut changes, &mut buffers)?;
    Ok(changes)
}
