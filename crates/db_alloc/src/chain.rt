// The IAM chain of a table.
ghost use Rattle.std.specs.Prelude.{◌≡◌, ◌<◌, ◌≤◌, ◌+◌, ◌==◌, ◌&&◌, ◌||◌, ◌++◌, ◌∷◌, [], IsTrue, IfOk, IfErr, OnOk, is_none, nat_lt, not, length, map, All};
ghost use Rattle.std.specs.List.{list_all, list_any};
ghost use Rattle.spec_file.specs.Iam.{iam_slots};
ghost use Rattle.spec_file.specs.Image.{page};
ghost use Rattle.spec_file.specs.Places.{page_limit};
ghost use Rattle.spec_file.specs.Roles as roles;
ghost use Rattle.spec_chain.specs.Chains as chains;
ghost use Rattle.spec_words.specs.Tables as spec;
ghost use Rattle.db_cat.specs.Rows.{row_of};
ghost use Rattle.db_locks.specs.declared.plan_pages.PageStop.TheVariants as stop;
ghost use Rattle.db_locks.specs.Does.{Does};
ghost use Rattle.db_alloc.specs.Maps.{IsOwnable};
ghost use Rattle.db_alloc.specs.Results.{value_as};
ghost use Rattle.db_alloc.specs.Tables.{numbers, bytes_of, chain_link};

use crate::Table;
use crate::buffer::page_room;
use crate::iam::{are_inside, is_iam_of, slots_of};
use crate::list::has_page;
use crate::look::look_page;
use db_locks::{PageStop, PlanPages};
use pg_base::{Page, PageNo, read_header};
use pg_geom::{is_inside, is_ordinary};
use std::alloc::Global;

/// The pages of a chain, in their order, as they were read.
#[derive(Drop)]
pub(crate) struct Chain {
    pub numbers: Vec<PageNo>,
    pub pages: Vec<Box<Page>>,
}

fn is_last(met: usize, p: PageNo) -> bool
    ensures { result ≡ chains.is_last met p.0 }
{
    p.0 == 0 && met != 0
}

// Page p goes on with a chain that has met these pages.
fn is_chain_page(table: &Table, met: &[PageNo], p: PageNo, page: &Page) -> bool
    requires { p.0 < page_limit table.now.geometry }
    ensures { result ≡ (roles.is_ordinary table.now.geometry p.0
        && is_none (chains.fault_of_bytes table.now.geometry table.now.pages table.now.row.id.0 p.0 page.now.bytes) && not (list_any (λ q. q == p.0) (numbers met.now))) }
{
    is_ordinary(table.geometry, p) && is_iam_of(table, p, page) && !has_page(met, p)
}

// The slots of an IAM page hold pages of the file, where it is the first of its chain.
fn has_good_slots(table: &Table, met: &[PageNo], iam: &Page) -> bool
    ensures { result ≡ (not (length (numbers met.now) == 0) || list_all (λ q. nat_lt q table.now.pages) (iam_slots iam.now.bytes)) }
{
    if !met.is_empty() {
        return true;
    }
    are_inside(table.pages, &slots_of(iam))
}

// Page p, whose number stands on page `from`, as a page of a chain that has met these pages; and the
// number of the next.
fn read_link<P: PlanPages>(
    v: &mut P,
    table: &Table,
    met: &[PageNo],
    from: PageNo,
    p: PageNo,
    into: &mut Page,
) -> Result<PageNo, PageStop>
    requires geometry { table.now.geometry ≡ (P.state v.old).view.shape.geometry }
    requires pages { table.now.pages ≡ (P.state v.old).view.shape.pages }
    ensures does { Does (P.state v.old) (P.state v.new) (chain_link (P.state v.old).view.shape (row_of table.now.row) (numbers met.now) from.0 p.0) (value_as (λ q. q.0) result) }
    ensures told { OnOk result (IsTrue (P.state v.old).told → into.new.bytes ≡ page (P.state v.old).view.now p.0) }
    ensures ownable { OnOk result (IsOwnable (P.state v.old).view.shape p.0) }
    ensures view { (P.state v.new).view ≡ (P.state v.old).view }
{
    if !is_inside(table.pages, p) {
        return Err(PageStop::Bad(from));
    }
    look_page(v, p, into)?;
    if !is_chain_page(table, met, p, into) {
        return Err(PageStop::Bad(p));
    }
    if !has_good_slots(table, met, into) {
        return Err(PageStop::Bad(p));
    }
    Ok(read_header(into).next)
}

// One page more, at the end of a chain.
fn push_link(chain: &mut Chain, p: PageNo, iam: Box<Page>) -> Result<(), PageStop>
    ensures numbers { OnOk result (numbers chain.new.numbers.items ≡ numbers chain.old.numbers.items ++ p.0 ∷ []) }
    ensures pages { OnOk result (bytes_of chain.new.pages.items ≡ bytes_of chain.old.pages.items ++ iam.value.bytes ∷ []) }
    ensures short { IfErr result (λ e. e ≡ stop.NoMemory) }
{
    if chain.numbers.push(p).is_err() || chain.pages.push(iam).is_err() {
        return Err(PageStop::NoMemory);
    }
    Ok(())
}

// The chain goes on with page p, whose number stands on page `from`; and the number of the next.
fn add_link<P: PlanPages>(
    alloc: Global,
    v: &mut P,
    table: &Table,
    chain: &mut Chain,
    from: PageNo,
    p: PageNo,
) -> Result<PageNo, PageStop>
    requires geometry { table.now.geometry ≡ (P.state v.old).view.shape.geometry }
    requires pages { table.now.pages ≡ (P.state v.old).view.shape.pages }
    ensures does { Does (P.state v.old) (P.state v.new) (chain_link (P.state v.old).view.shape (row_of table.now.row) (numbers chain.old.numbers.items) from.0 p.0) (value_as (λ q. q.0) result) }
    ensures numbers { OnOk result (numbers chain.new.numbers.items ≡ numbers chain.old.numbers.items ++ p.0 ∷ []) }
    ensures told { OnOk result (IsTrue (P.state v.old).told → bytes_of chain.new.pages.items ≡ bytes_of chain.old.pages.items ++ page (P.state v.old).view.now p.0 ∷ []) }
    ensures ownable { OnOk result (IsOwnable (P.state v.old).view.shape p.0) }
    ensures view { (P.state v.new).view ≡ (P.state v.old).view }
{
    let mut iam = page_room(alloc)?;
    let next = read_link(v, table, &chain.numbers, from, p, &mut iam)?;
    push_link(chain, p, iam)?;
    Ok(next)
}

/// The chain of a table, page by page.
pub(crate) fn read_chain<P: PlanPages>(
    alloc: Global,
    v: &mut P,
    table: &Table,
) -> Result<Chain, PageStop>
    requires geometry { table.now.geometry ≡ (P.state v.old).view.shape.geometry }
    requires pages { table.now.pages ≡ (P.state v.old).view.shape.pages }
    ensures does { Does (P.state v.old) (P.state v.new) (spec.chain_of (P.state v.old).view.shape (row_of table.now.row)) (value_as (λ chain. numbers chain.numbers.items) result) }
    ensures some { IfOk result (λ chain. 1 ≤ length chain.numbers.items) }
    ensures few { IfOk result (λ chain. length chain.numbers.items ≤ table.now.pages + 2) }
    ensures told { IfOk result (λ chain. IsTrue (P.state v.old).told → bytes_of chain.pages.items ≡ map (page (P.state v.old).view.now) (numbers chain.numbers.items)) }
    ensures ownable { IfOk result (λ chain. All (IsOwnable (P.state v.old).view.shape) (numbers chain.numbers.items)) }
    ensures view { (P.state v.new).view ≡ (P.state v.old).view }
{
    let mut chain = Chain {
        numbers: Vec::new(alloc),
        pages: Vec::new(alloc),
    };
    let mut from = PageNo(9);
    let mut p = table.row.first_iam;
    for count in 0..table.pages + 2 {
        if is_last(chain.numbers.len(), p) {
            return Ok(chain);
        }
        let next = add_link(alloc, v, table, &mut chain, from, p)?;
        from = p;
        p = next;
    }
    Err(PageStop::Bad(p))
}
