// The chain of a table and its allocated pages, read once for all that is done with them.
ghost use Rattle.std.specs.Prelude.{◌≡◌, ◌<◌, ◌≤◌, ◌+◌, IsTrue, IfOk, length, map, All};
ghost use Rattle.spec_file.specs.Image.{page};
ghost use Rattle.db_cat.specs.Rows.{row_of};
ghost use Rattle.db_locks.specs.Does.{Does};
ghost use Rattle.db_alloc.specs.Drops.{owned_read, owned_of};
ghost use Rattle.db_alloc.specs.Maps.{IsOwnable};
ghost use Rattle.db_alloc.specs.Results.{value_as};
ghost use Rattle.db_alloc.specs.Tables.{numbers, bytes_of};

use crate::Table;
use crate::buffer::page_room;
use crate::chain::{Chain, read_chain};
use crate::marks::{byte_pages, chain_slots};
use crate::pages::read_pages;
use db_locks::{PageStop, PlanPages};
use pg_base::PageNo;
use std::alloc::Global;

/// What an object owns.
#[derive(Drop)]
pub(crate) struct Owned {
    pub chain: Chain,
    /// Its allocated pages, rising; those of its chain aren't among them.
    pub pages: Vec<PageNo>,
}

/// The chain of a table, and its allocated pages.
pub(crate) fn read_owned<P: PlanPages>(
    alloc: Global,
    v: &mut P,
    table: &Table,
) -> Result<Owned, PageStop>
    requires geometry { table.now.geometry ≡ (P.state v.old).view.shape.geometry }
    requires pages { table.now.pages ≡ (P.state v.old).view.shape.pages }
    ensures does { Does (P.state v.old) (P.state v.new) (owned_read (P.state v.old).view.shape (row_of table.now.row)) (value_as owned_of result) }
    ensures some { IfOk result (λ owned. 1 ≤ length owned.chain.numbers.items) }
    ensures few { IfOk result (λ owned. length owned.chain.numbers.items ≤ table.now.pages + 2) }
    ensures told { IfOk result (λ owned. IsTrue (P.state v.old).told → bytes_of owned.chain.pages.items ≡ map (page (P.state v.old).view.now) (numbers owned.chain.numbers.items)) }
    ensures ownable { IfOk result (λ owned. All (IsOwnable (P.state v.old).view.shape) (numbers owned.chain.numbers.items)) }
    ensures inside { IfOk result (λ owned. All (λ p. p < table.now.pages) (numbers owned.pages.items)) }
    ensures view { (P.state v.new).view ≡ (P.state v.old).view }
{
    let mut buffer = page_room(alloc)?;
    let chain = read_chain(alloc, v, table)?;
    let slots = chain_slots(&chain);
    let pages = byte_pages(alloc, table, &chain)?;
    let pages = read_pages(alloc, v, table, &slots, &pages, &mut buffer)?;
    Ok(Owned { chain, pages })
}
