//! A view in memory, for tests: of a transaction that holds nothing when its statement begins, over pages
//! that nobody else has written.
ghost use Rattle.std.specs.Prelude.{◌≡◌, ◌<◌, ◌∷◌, length, vec_len, slice_set, [], true, false, IfOk, OnOk, OnErr};
ghost use Rattle.spec_file.specs.Image.{page};
ghost use Rattle.spec_file.specs.Places.{HasShape};
ghost use Rattle.spec_words.specs.Views.{beginning};
ghost use Rattle.spec_log.specs.Items.{is_same as same_resource};
ghost use Rattle.spec_words.specs.Takes.{in_order as takes_in_order, is_among, comes_before as before_resource, with_resource};
ghost use Rattle.law_net.specs.Files.{IsImageOf, DifferUnder};
ghost use Rattle.db_locks.specs.MemImages.{shape_of, image_of, DifferWherePut};
ghost use Rattle.db_locks.specs.States.{are_rising, with_page};
ghost use Rattle.db_locks.specs.Locks.{others_of};

use crate::key::key;
use crate::{LockTable, PageStop, PlanPages};
use pg_base::{Geometry, NoMemory, Page, PageNo, Resource, Tran, is_whole};
use std::alloc::{AllocError, Global};

fn comes_before(r: Resource, s: Resource) -> bool
    ensures { result ≡ before_resource r s }
{
    let (one, other) = (key(r), key(s));
    one.grain < other.grain || (one.grain == other.grain && one.number < other.number)
}

fn is_same(r: Resource, s: Resource) -> bool
    ensures { result ≡ same_resource r s }
{
    let (one, other) = (key(r), key(s));
    one.grain == other.grain && one.number == other.number
}

fn contains(taken: &[Resource], r: Resource) -> bool
    ensures { result ≡ is_among taken.now r }
{
    taken.iter().any(|s| is_same(r, *s))
}

fn add_resource(list: &mut Vec<Resource>, r: Resource) -> Result<(), AllocError>
    ensures ok { OnOk result (list.new.items ≡ with_resource r list.old.items) }
    ensures err { OnErr result (list.new.items ≡ list.old.items) }
{
    for i in 0..list.len() {
        if comes_before(r, list[i]) {
            list.insert(i, r)?;
            return Ok(());
        }
        if is_same(r, list[i]) {
            return Ok(());
        }
    }
    list.push(r)?;
    Ok(())
}

fn add_page(list: &mut Vec<PageNo>, p: PageNo) -> Result<(), AllocError>
    ensures ok { OnOk result (list.new.items ≡ with_page p list.old.items) }
    ensures err { OnErr result (list.new.items ≡ list.old.items) }
{
    for i in 0..list.len() {
        if p.0 == list[i].0 {
            return Ok(());
        }
        if p.0 < list[i].0 {
            list.insert(i, p)?;
            return Ok(());
        }
    }
    list.push(p)?;
    Ok(())
}

fn replace(pages: &mut Vec<Page>, p: usize, from: &Page)
    requires { p < vec_len pages.old }
    ensures image { image_of pages.new.items ≡ slice_set (image_of pages.old.items) p from.now.bytes }
    ensures len { length pages.new.items ≡ length pages.old.items }
{
    pages[p] = Page { bytes: from.bytes };
}

fn copy(pages: &[Page], p: usize, into: &mut Page)
    requires { p < length pages.now }
    ensures { into.new.bytes ≡ page (image_of pages.now) p }
{
    into.bytes = pages[p].bytes;
}

// A resource comes to what was taken, the last first, and to the same in the order of takes; or neither
// changes.
fn add_taken(
    taken: &mut Vec<Resource>,
    in_order: &mut Vec<Resource>,
    r: Resource,
) -> Result<(), AllocError>
    ensures taken { OnOk result (taken.new.items ≡ r ∷ taken.old.items) }
    ensures ordered { OnOk result (in_order.new.items ≡ with_resource r in_order.old.items) }
    ensures same_taken { OnErr result (taken.new.items ≡ taken.old.items) }
    ensures same_order { OnErr result (in_order.new.items ≡ in_order.old.items) }
{
    taken.insert(0, r)?;
    if let Err(error) = add_resource(in_order, r) {
        taken.remove(0);
        return Err(error);
    }
    Ok(())
}

/// Pages, what other transactions hold of them, and what the statement has put and taken.
#[derive(Drop)]
pub struct MemView {
    geometry: Geometry,
    version: u32,
    pages: Vec<Page>,
    first: Vec<Page>,
    put: Vec<PageNo>,
    locks: LockTable,
    taken: Vec<Resource>,
    in_order: Vec<Resource>,
    ghost now: { IsImageOf (shape_of geometry version pages.items) (image_of pages.items) },
    ghost began: { IsImageOf (shape_of geometry version pages.items) (image_of first.items) },
    ghost only: { ∥ DifferUnder (shape_of geometry version pages.items) taken.items (image_of first.items) (image_of pages.items) ∥₁ },
    ghost differ: { DifferWherePut put.items (image_of first.items) (image_of pages.items) },
    ghost rising: { are_rising put.items ≡ true },
    ghost ordered: { in_order.items ≡ takes_in_order taken.items },
}

impl MemView {
    ghost use Rattle.db_locks.specs.Memory.{state_of};

    /// A statement begins on these pages.
    pub fn begin(
        alloc: Global,
        geometry: Geometry,
        version: u32,
        pages: Vec<Page>,
        locks: LockTable,
    ) -> Result<MemView, NoMemory>
        requires { HasShape geometry (length pages.items) }
        ensures view { IfOk result (λ m. (state_of m).view ≡ beginning (shape_of geometry version pages.items) (image_of pages.items) (others_of locks) (λ r. false)) }
        ensures put { IfOk result (λ m. (state_of m).put ≡ []) }
    {
        let mut first = Vec::new(alloc);
        for page in &pages {
            is_whole(page);
            first.push(Page { bytes: page.bytes })?;
        }
        Ok(MemView {
            geometry,
            version,
            pages,
            first,
            put: Vec::new(alloc),
            locks,
            taken: Vec::new(alloc),
            in_order: Vec::new(alloc),
        })
    }
}

impl PlanPages for MemView {
    ghost use Rattle.db_locks.specs.Memory.{state_of};
    ghost use Rattle.db_locks.specs.MemoryLaws.{size_of, images_of};

    ghost state = { state_of };

    ghost size = { size_of };

    ghost images = { images_of };

    fn holder(&self, r: Resource) -> Option<Tran> {
        self.locks.holder(r)
    }

    fn look(&mut self, p: PageNo, r: Resource, into: &mut Page) -> Result<(), PageStop> {
        if let Some(by) = self.locks.holder(r) {
            return Err(PageStop::Held { resource: r, by });
        }
        copy(&self.pages, p.0 as usize, into);
        Ok(())
    }

    fn put(&mut self, p: PageNo, from: &Page) -> Result<(), PageStop> {
        match add_page(&mut self.put, p) {
            Err(_) => Err(PageStop::NoMemory),
            Ok(()) => {
                is_whole(from);
                replace(&mut self.pages, p.0 as usize, from);
                Ok(())
            }
        }
    }

    fn take(&mut self, r: Resource) -> Result<(), PageStop> {
        if let Some(by) = self.locks.holder(r) {
            return Err(PageStop::Held { resource: r, by });
        }
        if contains(&self.taken, r) {
            return Ok(());
        }
        match add_taken(&mut self.taken, &mut self.in_order, r) {
            Err(_) => Err(PageStop::NoMemory),
            Ok(()) => Ok(()),
        }
    }

    fn changed(&self) -> &[PageNo] {
        &self.put
    }

    fn before(&self, p: PageNo, into: &mut Page) {
        copy(&self.first, p.0 as usize, into);
    }

    fn after(&self, p: PageNo, into: &mut Page) {
        copy(&self.pages, p.0 as usize, into);
    }

    fn taken(&self) -> &[Resource] {
        &self.in_order
    }
}
