// The id and the entry that a new object gets.
ghost use Rattle.std.specs.Prelude.{◌≡◌, ◌<◌, [], IfOk, is_some, map};
ghost use Rattle.spec_plan.specs.Reading.{named_among};
ghost use Rattle.db_cat.specs.Rows.{row_of};
ghost use Rattle.db_locks.specs.States.{PlanState};
ghost use Rattle.db_locks.specs.Does.{DoesAs};
ghost use Rattle.db_alloc.specs.Results.{value_as};
ghost use Rattle.db_table.specs.Creates.{create_stop, place_chosen, place_of};

use db_alloc::{AllocStop, read_rows};
use db_cat::{CatRow, free_entry, free_id};
use db_locks::PageStop;
use pg_base::{ObjId, Page};
use spec_file::ENTRY_COUNT;
use spec_script::Name;
use std::alloc::Global;

/// Why no table is created.
#[derive(Clone, Copy, Debug, PartialEq, Eq)]
pub enum CreateStop {
    Alloc(AllocStop),
    /// An object has the name.
    SameName,
    /// No entry of the catalog is empty.
    TooMany,
}

impl From<AllocStop> for CreateStop {
    ghost use Rattle.db_table.specs.declared.place.CreateStop.TheVariants.{Alloc};

    ghost from_gives = { λ e stop. stop ≡ Alloc e };

    fn from(e: AllocStop) -> Self {
        CreateStop::Alloc(e)
    }
}

impl From<PageStop> for CreateStop {
    ghost use Rattle.db_alloc.specs.declared.single.AllocStop.TheVariants.{Page};
    ghost use Rattle.db_table.specs.declared.place.CreateStop.TheVariants.{Alloc};

    ghost from_gives = { λ e stop. stop ≡ Alloc (Page e) };

    fn from(e: PageStop) -> Self {
        CreateStop::Alloc(AllocStop::Page(e))
    }
}

/// The id and the entry of a new object.
#[derive(Clone, Copy)]
pub(crate) struct Place {
    pub id: ObjId,
    pub entry: usize,
}

// One of these objects has the name.
fn is_named(rows: &[CatRow], name: &str) -> bool
    ensures { result ≡ is_some (named_among (map row_of rows.now) name.now) }
{
    for row in rows {
        if row.name.as_str() == name {
            return true;
        }
    }
    false
}

/// The smallest id and the lowest entry that are free, on a page that is to be the catalog, for an object of this
/// name.
pub(crate) fn place_for(alloc: Global, boot: &Page, name: &Name) -> Result<Place, CreateStop>
    ensures does { (a : PlanState) → DoesAs (create_stop name.now) [] a a (place_chosen name.now boot.now.bytes) (value_as place_of result) }
    ensures within { IfOk result (λ place. place.entry < ENTRY_COUNT) }
{
    let rows = read_rows(alloc, boot)?;
    if is_named(&rows, name.as_str()) {
        return Err(CreateStop::SameName);
    }
    match free_entry(boot) {
        Some(entry) => Ok(Place {
            id: free_id(&rows),
            entry,
        }),
        None => Err(CreateStop::TooMany),
    }
}
