// A page of memory, into which pages are read.
ghost use Rattle.std.specs.Prelude.{◌≡◌, IfErr};
ghost use Rattle.db_locks.specs.declared.plan_pages.PageStop.TheVariants as stop;

use db_locks::PageStop;
use pg_base::Page;
use std::alloc::Global;

/// Room for a page.
pub fn page_room(alloc: Global) -> Result<Box<Page>, PageStop>
    ensures { IfErr result (λ e. e ≡ stop.NoMemory) }
{
    match Page::zeroed(alloc) {
        Ok(page) => Ok(page),
        Err(_) => Err(PageStop::NoMemory),
    }
}
