// DROP.
ghost use Rattle.std.specs.Prelude.{◌≡◌, ℕ, List, [], None, IsTrue, Contains};
ghost use Rattle.spec_file.specs.declared.data.Resource.TheVariants as resource;
ghost use Rattle.spec_script.specs.declared.reply.Reply.TheVariants as reply;
ghost use Rattle.spec_statements.specs.Objects as spec;
ghost use Rattle.db_cat.specs.Rows.{row_of};
ghost use Rattle.db_locks.specs.Does.{DoesAs, DoesAfter};
ghost use Rattle.db_alloc.specs.Results.{value_as, find_stop};
ghost use Rattle.db_table.specs.Drops.{entry_removed, table_dropped};

use crate::entries::empty_entry;
use db_alloc::{FindStop, Table, find_table, free_chain, page_room};
use db_cat::entry_of;
use db_locks::{PageStop, PlanPages, look_catalog};
use pg_base::{Geometry, ObjId, Page, Resource};
use spec_script::Name;
use std::alloc::Global;

// The entry of this object becomes empty. Page 9, which the statement has reached, is read once more.
fn remove_entry<P: PlanPages>(v: &mut P, id: ObjId, buffer: &mut Page) -> Result<(), PageStop>
    requires own { (P.state v.old).view.other resource.Catalog ≡ None }
    ensures { (looked : List ℕ) → (IsTrue (P.state v.old).told → Contains looked 9) → DoesAfter looked (P.state v.old) (P.state v.new) (entry_removed id.0) (value_as (λ done. reply.Done) result) }
{
    look_catalog(v, buffer)?;
    match entry_of(buffer, id) {
        Some(i) => empty_entry(v, i, buffer),
        None => Ok(()),
    }
}

// A table that was found goes.
fn drop_found<P: PlanPages>(
    alloc: Global,
    v: &mut P,
    table: &Table,
    buffer: &mut Page,
) -> Result<(), PageStop>
    requires geometry { table.now.geometry ≡ (P.state v.old).view.shape.geometry }
    requires pages { table.now.pages ≡ (P.state v.old).view.shape.pages }
    ensures { (looked : List ℕ) → (IsTrue (P.state v.old).told → Contains looked 9) → DoesAfter looked (P.state v.old) (P.state v.new) (table_dropped (P.state v.old).view.shape (row_of table.now.row)) (value_as (λ done. reply.Done) result) }
{
    v.take(Resource::Table(table.row.id))?;
    free_chain(alloc, v, table)?;
    v.take(Resource::Catalog)?;
    remove_entry(v, table.row.id, buffer)
}

/// DROP: the table of this name goes, with all that it owns. `geometry` and `pages` are those of the view's file.
pub fn drop_table<P: PlanPages>(
    alloc: Global,
    v: &mut P,
    geometry: Geometry,
    pages: u32,
    name: &Name,
) -> Result<(), FindStop>
    requires geometry { geometry ≡ (P.state v.old).view.shape.geometry }
    requires pages { pages ≡ (P.state v.old).view.shape.pages }
    ensures { DoesAs (find_stop name.now) [] (P.state v.old) (P.state v.new) (spec.drop_plan (P.state v.old).view.shape name.now) (value_as (λ done. reply.Done) result) }
{
    let mut buffer = page_room(alloc)?;
    let row = find_table(alloc, v, name)?;
    let table = Table {
        row,
        geometry,
        pages,
    };
    Ok(drop_found(alloc, v, &table, &mut buffer)?)
}
