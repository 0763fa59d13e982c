// What a statement takes.
ghost use Rattle.std.specs.Prelude.{◌≡◌, IsTrue, IfOk};
ghost use Rattle.spec_words.specs.NetChanges as spec;
ghost use Rattle.spec_words.specs.Takes.{takes_at};
ghost use Rattle.net_changes.specs.Shown.{is_byte_shown, is_page_shown, counts_shown};

use crate::pages::is_changed;
use crate::pair::{Pair, differs, pair_room};
use crate::put::read_put;
use db_locks::PlanPages;
use pg_base::{Geometry, NoMemory, PageNo, Resource};
use pg_geom::pfs_of;
use std::alloc::Global;

// The PFS byte of page p differs.
fn has_byte_changed<P: PlanPages>(
    v: &P,
    geometry: Geometry,
    pages: u32,
    p: PageNo,
    pair: &mut Pair,
) -> bool
    requires geometry { geometry ≡ (P.state v.now).view.shape.geometry }
    requires pages { pages ≡ (P.state v.now).view.shape.pages }
    ensures { IsTrue (P.state v.now).told → result ≡ is_byte_shown (P.state v.now) p.0 }
{
    if p.0 >= pages {
        return false;
    }
    let (page, at) = pfs_of(geometry, p);
    read_put(v, page, pair) && differs(pair, at as usize)
}

// Page p, which objects may own, differs.
fn has_page_changed<P: PlanPages>(v: &P, geometry: Geometry, p: PageNo, pair: &mut Pair) -> bool
    requires { geometry ≡ (P.state v.now).view.shape.geometry }
    ensures { IsTrue (P.state v.now).told → result ≡ is_page_shown (P.state v.now) p.0 }
{
    read_put(v, p, pair) && is_changed(geometry, p, pair)
}

// A PFS byte or a page counts where it really differs, any other resource always.
fn counts<P: PlanPages>(v: &P, geometry: Geometry, pages: u32, r: Resource, pair: &mut Pair) -> bool
    requires geometry { geometry ≡ (P.state v.now).view.shape.geometry }
    requires pages { pages ≡ (P.state v.now).view.shape.pages }
    ensures { IsTrue (P.state v.now).told → result ≡ counts_shown (P.state v.now) r }
{
    match r {
        Resource::Catalog | Resource::Table(_) | Resource::Extent(_) => true,
        Resource::Byte(p) => has_byte_changed(v, geometry, pages, p, pair),
        Resource::Page(p) => has_page_changed(v, geometry, p, pair),
    }
}

/// What the statement takes, in order: of what it took and its transaction didn't hold, that which counts.
pub fn net_takes<P: PlanPages>(
    alloc: Global,
    v: &P,
    geometry: Geometry,
    pages: u32,
) -> Result<Vec<Resource>, NoMemory>
    requires geometry { geometry ≡ (P.state v.now).view.shape.geometry }
    requires pages { pages ≡ (P.state v.now).view.shape.pages }
    ensures { IfOk result (λ takes. IsTrue (P.state v.now).told → takes.items ≡ takes_at (P.state v.now).view) }
{
    let mut pair = pair_room(alloc)?;
    let mut takes = Vec::new(alloc);
    let taken = v.taken();
    for r in taken {
        if counts(v, geometry, pages, *r, &mut pair) {
            takes.push(*r)?;
        }
    }
    Ok(takes)
}
