// What a session is told of the reason for which its statement stops.
ghost use Rattle.std.specs.Prelude.{◌≡◌, ◌⊎◌};
ghost use Rattle.spec_plan.specs.Refusals as spec;
ghost use Rattle.db_locks.specs.Does.{stop_of};
ghost use Rattle.db_alloc.specs.Results.{find_stop, alloc_stop};
ghost use Rattle.db_heap.specs.InsertPlans.{insert_stop};
ghost use Rattle.db_table.specs.Creates.{create_stop};
ghost use Rattle.db_plan.specs.Refusals.{Tells};

use db_alloc::{AllocStop, FindStop};
use db_heap::InsertStop;
use db_locks::PageStop;
use db_table::CreateStop;
use spec_script::{
    BAD_PAGE, HELD, NO_MEMORY, NO_ROOM, NO_TABLE, Name, READ_FAULT, Refusal, SAME_NAME,
    TOO_MANY_TABLES,
};
use std::alloc::Global;

/// Memory is short.
pub(crate) fn out_of_memory(alloc: Global) -> Refusal
    ensures { result ≡ spec.out_of_memory }
{
    Refusal::plain(alloc, NO_MEMORY)
}

// What is told of a page.
fn of_page(alloc: Global, stop: PageStop) -> Refusal
    ensures { Tells (stop_of stop) result }
{
    match stop {
        PageStop::Held { resource, by } => Refusal {
            resource: Some(resource),
            by,
            ..Refusal::plain(alloc, HELD)
        },
        PageStop::Fault(page) => Refusal {
            page,
            ..Refusal::plain(alloc, READ_FAULT)
        },
        PageStop::Bad(page) => Refusal {
            page,
            ..Refusal::plain(alloc, BAD_PAGE)
        },
        PageStop::NoMemory => out_of_memory(alloc),
    }
}

// No object has the name, unless memory is short to tell so.
fn no_table(alloc: Global, name: &Name) -> Refusal
    ensures { (result ≡ spec.no_table name.now) ⊎ (result ≡ spec.out_of_memory) }
{
    match Name::copied(alloc, name.as_str()) {
        Ok(name) => Refusal {
            name,
            ..Refusal::plain(alloc, NO_TABLE)
        },
        Err(_) => out_of_memory(alloc),
    }
}

/// What is told of a statement that doesn't find the table of this name, or its pages.
pub(crate) fn of_find(alloc: Global, stop: FindStop, name: &Name) -> Refusal
    ensures { Tells (find_stop name.now stop) result }
{
    match stop {
        FindStop::Page(stop) => of_page(alloc, stop),
        FindStop::NoTable => no_table(alloc, name),
    }
}

/// What is told of an INSERT into the table of this name.
pub(crate) fn of_insert(alloc: Global, stop: InsertStop, name: &Name) -> Refusal
    ensures { Tells (insert_stop name.now stop) result }
{
    match stop {
        InsertStop::Find(stop) => of_find(alloc, stop, name),
        InsertStop::NoRoom => Refusal::plain(alloc, NO_ROOM),
    }
}

// An object has the name already, unless memory is short to tell so.
fn same_name(alloc: Global, name: &Name) -> Refusal
    ensures { (result ≡ spec.same_name name.now) ⊎ (result ≡ spec.out_of_memory) }
{
    match Name::copied(alloc, name.as_str()) {
        Ok(name) => Refusal {
            name,
            ..Refusal::plain(alloc, SAME_NAME)
        },
        Err(_) => out_of_memory(alloc),
    }
}

// What is told of a statement that gets no page.
fn of_alloc(alloc: Global, stop: AllocStop) -> Refusal
    ensures { Tells (alloc_stop stop) result }
{
    match stop {
        AllocStop::Page(stop) => of_page(alloc, stop),
        AllocStop::Full => Refusal::plain(alloc, NO_ROOM),
    }
}

/// What is told of a CREATE HEAP of this name.
pub(crate) fn of_create(alloc: Global, stop: CreateStop, name: &Name) -> Refusal
    ensures { Tells (create_stop name.now stop) result }
{
    match stop {
        CreateStop::Alloc(stop) => of_alloc(alloc, stop),
        CreateStop::SameName => same_name(alloc, name),
        CreateStop::TooMany => Refusal::plain(alloc, TOO_MANY_TABLES),
    }
}
