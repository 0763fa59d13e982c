//! What a statement of a session is planned on: the file as the session's transaction sees it, with the
//! pages that the statement puts and the resources that it takes.
ghost use Rattle.std.specs.Prelude.{◌≡◌, ◌+◌, ◌<◌, ◌≤◌, ◌∷◌, [], true, All, IfErr, MatchResult, OnOk, OnErr, if◌then◌else◌, length, insert, option_map, slice_get, slice_set, vec_len, Some};
ghost use Rattle.spec_file.specs.Image.{page, Image};
ghost use Rattle.spec_run.specs.Begun.{view_at, shape_of};
ghost use Rattle.spec_words.specs.Takes.{comes_before as before_resource, with_resource};
ghost use Rattle.law_net.specs.Files.{DifferUnder};
ghost use Rattle.db_locks.specs.States.{are_rising, with_page};
ghost use Rattle.db_core.specs.Store.{IsGood, run_is, log_of};
ghost use Rattle.db_core.specs.Views.{tran_at};
ghost use Rattle.db_core.specs.SeenPages.{began_at, with_pages, not_held, AreFree, ArePut, IsWholePage, StandsAt, FitsAt};

use crate::holders::{contains, holder_among, holds, is_same};
use crate::session::Session;
use crate::state::State;
use db_locks::{PageStop, PlanPages};
use pg_base::{Page, PageNo, is_whole};
use spec_file::{Resource, Tran};
use std::alloc::{AllocError, Global};

fn comes_before(r: Resource, s: Resource) -> bool
    ensures { result ≡ before_resource r s }
{
    r < s
}

// A resource comes to others in the order of takes, if it isn't there.
fn add_resource(list: &mut Vec<Resource>, r: Resource) -> Result<(), AllocError>
    ensures ok { OnOk result (list.new.items ≡ with_resource r list.old.items) }
    ensures err { OnErr result (list.new.items ≡ list.old.items) }
{
    for i in 0..list.len() {
        if comes_before(r, list[i]) {
            list.insert(i, r)?;
            return Ok(());
        }
        if is_same(r, list[i]) {
            return Ok(());
        }
    }
    list.push(r)?;
    Ok(())
}

// A resource comes to what was taken, the last first, and where it isn't held to the same in the order of
// takes; or neither changes.
fn add_taken(
    taken: &mut Vec<Resource>,
    newly: &mut Vec<Resource>,
    r: Resource,
    held: bool,
) -> Result<(), AllocError>
    ensures taken { OnOk result (taken.new.items ≡ r ∷ taken.old.items) }
    ensures newly { OnOk result (newly.new.items ≡ (if held then newly.old.items else with_resource r newly.old.items)) }
    ensures same_taken { OnErr result (taken.new.items ≡ taken.old.items) }
    ensures same_newly { OnErr result (newly.new.items ≡ newly.old.items) }
{
    taken.insert(0, r)?;
    if held {
        return Ok(());
    }
    if let Err(error) = add_resource(newly, r) {
        taken.remove(0);
        return Err(error);
    }
    Ok(())
}

// The place of a page among those that were put, or the place where it would stand.
fn place_of(put: &[PageNo], p: PageNo) -> Result<usize, usize>
    requires { are_rising put.now ≡ true }
    ensures { MatchResult result (StandsAt p put.now) (FitsAt p put.now) }
{
    let at = put.partition_point(|q| q.0 < p.0);
    if at == put.len() {
        return Err(at);
    }
    if put[at].0 == p.0 {
        return Ok(at);
    }
    Err(at)
}

// A page is put once more.
fn replace(pages: &mut Vec<Page>, at: usize, from: &Page)
    requires { at < vec_len pages.old }
    ensures items { pages.new.items ≡ slice_set pages.old.items at (record { bytes = from.now.bytes }) }
    ensures whole { IsWholePage (record { bytes = from.now.bytes }) }
{
    is_whole(from);
    pages[at] = Page { bytes: from.bytes };
}

// A page is put for the first time; or, for want of memory, neither list changes.
fn insert_page(
    put: &mut Vec<PageNo>,
    pages: &mut Vec<Page>,
    at: usize,
    p: PageNo,
    from: &Page,
) -> Result<(), AllocError>
    requires put { at ≤ vec_len put.old }
    requires pages { at ≤ vec_len pages.old }
    ensures put { OnOk result (put.new.items ≡ insert put.old.items at p) }
    ensures pages { OnOk result (pages.new.items ≡ insert pages.old.items at (record { bytes = from.now.bytes })) }
    ensures same_put { OnErr result (put.new.items ≡ put.old.items) }
    ensures same_pages { OnErr result (pages.new.items ≡ pages.old.items) }
    ensures whole { IsWholePage (record { bytes = from.now.bytes }) }
{
    is_whole(from);
    put.insert(at, p)?;
    if pages.insert(at, Page { bytes: from.bytes }).is_err() {
        put.remove(at);
        return Err(AllocError);
    }
    Ok(())
}

// Page p is shown so from here on; or, for want of memory, nothing changes.
fn put_page(
    put: &mut Vec<PageNo>,
    pages: &mut Vec<Page>,
    p: PageNo,
    from: &Page,
) -> Result<(), AllocError>
    requires rising { are_rising put.old.items ≡ true }
    requires long { length pages.old.items ≡ length put.old.items }
    ensures put { OnOk result (put.new.items ≡ with_page p put.old.items) }
    ensures image { OnOk result ((image : Image) → with_pages put.new.items pages.new.items image ≡ slice_set (with_pages put.old.items pages.old.items image) p.0 from.now.bytes) }
    ensures same_put { OnErr result (put.new.items ≡ put.old.items) }
    ensures same_pages { OnErr result (pages.new.items ≡ pages.old.items) }
    ensures long { length pages.new.items ≡ length put.new.items }
    ensures whole { All IsWholePage pages.old.items → All IsWholePage pages.new.items }
{
    match place_of(put, p) {
        Ok(at) => {
            replace(pages, at, from);
            Ok(())
        }
        Err(at) => insert_page(put, pages, at, p, from),
    }
}

/// The file as a statement's transaction sees it, and what the statement puts and takes.
#[derive(Drop)]
pub struct StatementView<'a> {
    pub state: &'a State,
    /// The session, counted from 0.
    pub at: usize,
    /// The pages that were put, rising.
    put: Vec<PageNo>,
    /// These pages as they are shown, in the same order.
    pages: Vec<Page>,
    /// What was taken, the last first.
    taken: Vec<Resource>,
    /// Of this what the transaction doesn't hold, in the order of takes.
    newly: Vec<Resource>,
    ghost inside: { at < length state.now.sessions.items },
    ghost good: { ∥ IsGood state.now ∥₁ },
    ghost are_put: { ArePut put.items pages.items (length state.now.frames) },
    ghost only: { ∥ DifferUnder (shape_of (run_is state.now)) taken.items state.now.frames (with_pages put.items pages.items state.now.frames) ∥₁ },
    ghost free: { ∥ AreFree (began_at state.now at) taken.items ∥₁ },
    ghost newly_is: { newly.items ≡ not_held (began_at state.now at).own taken.items },
}

impl<'a> StatementView<'a> {
    ghost use Rattle.db_core.specs.StatementViews.{state_of, shown_of};

    /// What the next statement of session `at` is planned on.
    pub fn of(alloc: Global, state: &'a State, at: usize) -> StatementView<'a>
        requires good { IsGood state.now }
        requires at { at < length state.now.sessions.items }
        ensures begins { (state_of result).view ≡ view_at (run_is state.now) (log_of state.now) (tran_at state.now.sessions.items at) }
        ensures told { (state_of result).told ≡ true }
        ensures put { (state_of result).put ≡ [] }
    {
        StatementView {
            state,
            at,
            put: Vec::new(alloc),
            pages: Vec::new(alloc),
            taken: Vec::new(alloc),
            newly: Vec::new(alloc),
        }
    }

    /// The session.
    fn session(&self) -> &Session
        ensures { slice_get self.now.state.now.sessions.items self.now.at ≡ Some result.now }
    {
        &self.state.sessions[self.at]
    }

    /// Whether the session's transaction holds a resource.
    fn owns(&self, r: Resource) -> bool
        ensures { result ≡ (began_at self.now.state.now self.now.at).own r }
    {
        holds(self.session(), r)
    }

    /// Fills `into` with page p as it is shown.
    fn show(&self, p: PageNo, into: &mut Page)
        requires { p.0 < length self.now.state.now.frames }
        ensures { into.new.bytes ≡ page (shown_of self.now) p.0 }
    {
        match place_of(&self.put, p) {
            Ok(at) => into.bytes = self.pages[at].bytes,
            Err(_) => into.bytes = self.state.frames.page(p.0 as usize).bytes,
        }
    }
}

impl PlanPages for StatementView<'_> {
    ghost use Rattle.db_core.specs.StatementViews.{state_of};
    ghost use Rattle.db_core.specs.StatementViewLaws.{size_of, images_of};

    ghost state = { state_of };

    ghost size = { size_of };

    ghost images = { images_of };

    fn holder(&self, r: Resource) -> Option<Tran> {
        holder_among(&self.state.sessions, r, self.session().tran)
    }

    fn look(&mut self, p: PageNo, r: Resource, into: &mut Page) -> Result<(), PageStop> {
        if let Some(by) = self.holder(r) {
            return Err(PageStop::Held { resource: r, by });
        }
        self.show(p, into);
        Ok(())
    }

    fn put(&mut self, p: PageNo, from: &Page) -> Result<(), PageStop> {
        match put_page(&mut self.put, &mut self.pages, p, from) {
            Err(_) => Err(PageStop::NoMemory),
            Ok(()) => Ok(()),
        }
    }

    fn take(&mut self, r: Resource) -> Result<(), PageStop> {
        if let Some(by) = self.holder(r) {
            return Err(PageStop::Held { resource: r, by });
        }
        if contains(&self.taken, r) {
            return Ok(());
        }
        let held = self.owns(r);
        match add_taken(&mut self.taken, &mut self.newly, r, held) {
            Err(_) => Err(PageStop::NoMemory),
            Ok(()) => Ok(()),
        }
    }

    fn changed(&self) -> &[PageNo] {
        &self.put
    }

    fn before(&self, p: PageNo, into: &mut Page) {
        into.bytes = self.state.frames.page(p.0 as usize).bytes;
    }

    fn after(&self, p: PageNo, into: &mut Page) {
        self.show(p, into);
    }

    fn taken(&self) -> &[Resource] {
        &self.newly
    }
}
