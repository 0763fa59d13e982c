//! A statement begins as it was planned.
ghost use Rattle.std.specs.Prelude.{◌≡◌, ◌+◌, ◌*◌, ◌<◌, ◌≤◌, ◌^◌, [], ◌++◌, length, slice_get, Some, Ok, IfOk, vec_len, vec_capacity};
ghost use Rattle.spec_log.specs.declared.limits.TheConstants.{MOST_CHANGES};
ghost use Rattle.db_core.specs.States.{KeepsRoom, IsSame};
ghost use Rattle.db_core.specs.Store.{IsGood, Went};
ghost use Rattle.db_core.specs.Plans as spec;
ghost use Rattle.db_core.specs.Plans.{AreSmall, BeginsAs, HasRoomFor, IsPlanned, IsPrepared, IsReady, IsRoomier, IsSmall, IsWriting, Writes};
ghost use Rattle.db_core.specs.Words.{IsEnded};

use crate::session::Session;
use crate::starts::{StatementNo, plain_start, refuse_by};
use crate::state::{State, owed_by, settle};
use crate::steps::{end, go_on};
use crate::turns::place_of;
use db_plan::{Plan, planned_bytes};
use spec_file::{NoMemory, Resource, Tran};
use spec_log::{Record, Values};
use spec_plan::Planned;
use spec_script::{NO_MEMORY, Refusal, Reply};
use std::alloc::Global;

/// How many changes the session's open transaction has announced.
pub fn used_now(session: &Session) -> u64
    ensures { result ≡ spec.used_now session.now }
{
    if session.tran == 0 { 0 } else { session.used }
}

/// How many changes a plan has.
fn changes_in(plan: &Plan) -> usize
    ensures { result ≡ spec.changes_in plan.now }
{
    match plan {
        Plan::Written { changes, .. } => changes.len(),
        _ => 0,
    }
}

/// How many resources a plan takes.
fn takes_in(plan: &Plan) -> usize
    ensures { result ≡ spec.takes_in plan.now }
{
    match plan {
        Plan::Written { takes, .. } => takes.count(),
        _ => 0,
    }
}

/// Room in a session for the numbers of so many changes and for so much that it takes.
fn make_room(session: &mut Session, changes: usize, takes: usize) -> Result<(), NoMemory>
    ensures same { IsSame session.old session.new }
    ensures kept_room { KeepsRoom session.old session.new }
    ensures room { IfOk result (λ _. HasRoomFor session.new changes takes) }
{
    session.left.reserve(changes)?;
    session.held.reserve(takes)?;
    Ok(())
}

/// A statement that only reads answers.
fn answer(alloc: Global, session: &mut Session, place: StatementNo, reply: Reply) -> Record
    requires { vec_len session.old.replies < vec_capacity session.old.replies }
    ensures ended { IsEnded place 0 reply session.old session.new result }
    ensures kept_room { KeepsRoom session.old session.new }
{
    let tran = session.tran;
    end(session, reply);
    plain_start(alloc, place, tran, 0)
}

/// What a statement takes is held from here on.
fn hold(session: &mut Session, takes: &[Resource])
    requires { length session.old.held.items + length takes.now ≤ vec_capacity session.old.held }
    ensures held { session.new.held.items ≡ session.old.held.items ++ takes.now }
    ensures script { session.new.script.items ≡ session.old.script.items }
    ensures tran { session.new.tran ≡ session.old.tran }
    ensures used { session.new.used ≡ session.old.used }
    ensures left { session.new.left.items ≡ session.old.left.items }
    ensures replies { session.new.replies.items ≡ session.old.replies.items }
    ensures kept_room { KeepsRoom session.old session.new }
{
    match session.held.extend_from_slice(takes) {
        Ok(()) => {}
        Err(_) => unreachable!(),
    }
}

/// Begins a transaction that has done nothing.
fn start_afresh(session: &mut Session, tran: u64)
    ensures tran { session.new.tran ≡ tran }
    ensures script { session.new.script.items ≡ session.old.script.items }
    ensures replies { session.new.replies.items ≡ session.old.replies.items }
    ensures left { session.new.left.items ≡ [] }
    ensures held { session.new.held.items ≡ [] }
    ensures used { session.new.used ≡ 0 }
    ensures kept_room { KeepsRoom session.old session.new }
    ensures kept_held { vec_capacity session.old.held ≤ vec_capacity session.new.held }
{
    session.tran = tran;
    session.left.clear();
    session.held.clear();
    session.used = 0;
}

/// Changes come next, in the session's transaction, which is the statement's own or not.
fn announce(
    session: &mut Session,
    place: StatementNo,
    takes: Values<Resource>,
    changes: Vec<Planned>,
    own: bool,
    reply: Reply,
) -> Record
    requires replies { vec_len session.old.replies < vec_capacity session.old.replies }
    requires small { AreSmall changes.items }
    requires used { session.old.used ≤ MOST_CHANGES }
    requires held { length session.old.held.items + length takes ≤ vec_capacity session.old.held }
    ensures writing { IsWriting place session.old.tran reply takes changes.items session.old.left.items session.old.held.items session.old.used own session.old session.new result }
    ensures kept_room { KeepsRoom session.old session.new }
{
    let tran = session.tran;
    let count = changes.len();
    let size = planned_bytes(&changes);
    hold(session, takes.as_slice());
    session.used += count as u64;
    let mut later = changes;
    later.reverse();
    go_on(session, later, own, reply);
    Record::Start {
        session: place.session,
        index: place.index,
        tran: Tran(tran),
        number: 0,
        changes: count as u32,
        size,
        takes,
    }
}

/// Changes come next, in the session's open transaction, or in one of the statement's own.
fn write(
    session: &mut Session,
    place: StatementNo,
    last: u64,
    takes: Values<Resource>,
    changes: Vec<Planned>,
    reply: Reply,
) -> Record
    requires replies { vec_len session.old.replies < vec_capacity session.old.replies }
    requires small { AreSmall changes.items }
    requires used { session.old.used ≤ MOST_CHANGES }
    requires held { length session.old.held.items + length takes ≤ vec_capacity session.old.held }
    requires low { last + 1 < 2 ^ 64 }
    ensures writes { Writes last place reply takes changes.items session.old session.new result }
    ensures kept_room { KeepsRoom session.old session.new }
{
    if session.tran == 0 {
        start_afresh(session, last + 1);
        return announce(session, place, takes, changes, true, reply);
    }
    announce(session, place, takes, changes, false, reply)
}

/// The record of a statement by its plan, or by its refusal; `last` is the greatest transaction so far.
fn start_by(
    alloc: Global,
    session: &mut Session,
    place: StatementNo,
    last: u64,
    plan: Result<Plan, Refusal>,
) -> Record
    requires replies { vec_len session.old.replies < vec_capacity session.old.replies }
    requires small { IfOk plan IsSmall }
    requires used { session.old.used ≤ MOST_CHANGES }
    requires held { IfOk plan (λ p. length session.old.held.items + spec.takes_in p ≤ vec_capacity session.old.held) }
    requires low { last + 1 < 2 ^ 64 }
    ensures begins { BeginsAs last place plan session.old session.new result }
    ensures kept_room { KeepsRoom session.old session.new }
{
    match plan {
        Ok(Plan::Read(reply)) => answer(alloc, session, place, reply),
        Ok(
            Plan::Written {
                reply,
                takes,
                changes,
            },
        ) => write(session, place, last, takes, changes, reply),
        Err(refusal) => refuse_by(alloc, session, place, refusal),
    }
}

/// How many changes an item announces.
fn announced_by(item: &Record) -> u64
    ensures { result ≡ spec.announced_by item.now }
{
    match item {
        Record::Start { changes, .. } => *changes as u64,
        _ => 0,
    }
}

/// The bytes of the changes that an item announces, and of an Undo for each.
fn bytes_by(item: &Record) -> u64
    requires { spec.bytes_by item.now < 2 ^ 64 }
    ensures { result ≡ spec.bytes_by item.now }
{
    match item {
        Record::Start { changes, size, .. } => *size + 17 * *changes as u64,
        _ => 0,
    }
}

/// Room for so many changes of session `at` and for so much that it takes.
fn make_room_at(state: &mut State, at: usize, changes: usize, takes: usize) -> Result<(), NoMemory>
    requires at { at < length state.old.sessions.items }
    requires few { changes ≤ MOST_CHANGES }
    requires room { vec_len state.old.items + state.old.owed ≤ vec_capacity state.old.items }
    ensures roomier { IsRoomier at state.old state.new }
    ensures items { IfOk result (λ _. vec_len state.new.items + (state.new.owed + 2 * changes) ≤ vec_capacity state.new.items) }
    ensures session { IfOk result (λ _. (y : Session) → slice_get state.new.sessions.items at ≡ Some y → HasRoomFor y changes takes) }
{
    make_room(&mut state.sessions[at], changes, takes)?;
    state.items.reserve(state.owed + 2 * changes)?;
    Ok(())
}

/// The plan, for which there is room from here on, or the refusal for want of memory.
fn with_room(state: &mut State, at: usize, plan: Plan) -> Result<Plan, Refusal>
    requires at { at < length state.old.sessions.items }
    requires good { IsGood state.old }
    requires planned { (x : Session) → slice_get state.old.sessions.items at ≡ Some x → IsPlanned state.old at x (Ok plan) }
    ensures { IsPrepared at state.old state.new result }
{
    match make_room_at(state, at, changes_in(&plan), takes_in(&plan)) {
        Ok(()) => Ok(plan),
        Err(NoMemory) => Err(Refusal::plain(state.alloc, NO_MEMORY)),
    }
}

/// The plan or the refusal, by which the statement may begin at once.
fn prepare(state: &mut State, at: usize, plan: Result<Plan, Refusal>) -> Result<Plan, Refusal>
    requires at { at < length state.old.sessions.items }
    requires good { IsGood state.old }
    requires planned { (x : Session) → slice_get state.old.sessions.items at ≡ Some x → IsPlanned state.old at x plan }
    ensures { IsPrepared at state.old state.new result }
{
    match plan {
        Ok(plan) => with_room(state, at, plan),
        Err(refusal) => Err(refusal),
    }
}

/// The record of a statement that may begin.
fn begin_ready(state: &mut State, at: usize, plan: Result<Plan, Refusal>)
    requires at { at < length state.old.sessions.items }
    requires good { IsGood state.old }
    requires ready { (x : Session) → slice_get state.old.sessions.items at ≡ Some x → IsReady state.old at x plan }
    ensures went { Went at state.old state.new }
{
    let before = owed_by(&state.sessions[at]);
    let place = place_of(at, &state.sessions[at]);
    let item = start_by(
        state.alloc,
        &mut state.sessions[at],
        place,
        state.last,
        plan,
    );
    state.all += announced_by(&item);
    state.size += bytes_by(&item);
    settle(state, at, before, item);
}

/// A statement begins as it was planned, or ends at once as it is refused.
pub fn begin_planned(state: &mut State, at: usize, plan: Result<Plan, Refusal>)
    requires at { at < length state.old.sessions.items }
    requires good { IsGood state.old }
    requires next { (x : Session) → slice_get state.old.sessions.items at ≡ Some x → IsPlanned state.old at x plan }
    ensures went { Went at state.old state.new }
{
    let plan = prepare(state, at, plan);
    begin_ready(state, at, plan);
}
