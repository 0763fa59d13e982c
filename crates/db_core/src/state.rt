//! All that the core keeps, and how an item is appended.
ghost use Rattle.std.specs.Prelude.{◌≡◌, ◌+◌, ◌-◌, ◌<◌, ◌≤◌, ◌^◌, [], ◌∷◌, ◌++◌, length, max, slice_get, Some, vec_len, vec_capacity};
ghost use Rattle.db_core.specs.Rooms as rooms;
ghost use Rattle.db_core.specs.Store.{IsSettled};

use crate::session::{Doing, Session};
use spec_log::{Record, tran_of_item};
use std::alloc::Global;
use std::snapshot::Snapshot;
use vol_pool::Frames;

/// The file's pages, the log's items and the sessions.
#[derive(Drop)]
pub struct State {
    pub alloc: Global,
    /// The file as it was found. A snapshot has no bytes when the program runs.
    pub base: Snapshot<Frames>,
    /// The sessions as they began, for their scripts.
    pub first: Snapshot<Vec<Session>>,
    pub items: Vec<Record>,
    pub frames: Frames,
    pub sessions: Vec<Session>,
    /// The greatest transaction of the log.
    pub last: u64,
    /// How many changes the log's Starts announce, and the bytes of these and of their Undos.
    pub all: u64,
    pub size: u64,
    /// For how many items there has to be room.
    pub owed: usize,
}

/// One item more, for which there is room.
fn push_item(items: &mut Vec<Record>, item: Record)
    requires { vec_len items.old < vec_capacity items.old }
    ensures items { items.new.items ≡ items.old.items ++ item ∷ [] }
    ensures len { vec_len items.new ≡ vec_len items.old + 1 }
    ensures capacity { vec_capacity items.old ≤ vec_capacity items.new }
{
    match items.push(item) {
        Ok(()) => {}
        Err(_) => unreachable!(),
    }
}

/// How many changes are still to be made.
fn pending_of(doing: &Doing) -> usize
    ensures { result ≡ rooms.pending_of doing.now }
{
    match doing {
        Doing::Changing { later, .. } => later.len() + 1,
        _ => 0,
    }
}

/// 1 where a statement is under way.
fn started_of(doing: &Doing) -> usize
    ensures { result ≡ rooms.started_of doing.now }
{
    match doing {
        Doing::Idle => 0,
        _ => 1,
    }
}

/// For how many items of a session there has to be room.
pub fn owed_by(session: &Session) -> usize
    requires { rooms.HasOwnRoom session.now }
    ensures { result ≡ rooms.owed_by session.now }
{
    let unfinished = session.script.len() - session.replies.len();
    4 * unfinished - started_of(&session.doing)
        + (session.left.len() + 2 * pending_of(&session.doing))
}

/// Appends the item of a step that a session has made, which owed so much room before it.
pub fn settle(state: &mut State, at: usize, before: usize, item: Record)
    requires at { at < length state.old.sessions.items }
    requires own { (x : Session) → slice_get state.old.sessions.items at ≡ Some x → rooms.HasOwnRoom x }
    requires room { vec_len state.old.items < vec_capacity state.old.items }
    requires before { before ≤ state.old.owed }
    requires low { state.old.owed < 2 ^ 63 }
    ensures { (x : Session) → slice_get state.old.sessions.items at ≡ Some x → IsSettled at before item x state.old state.new }
{
    state.last = tran_of_item(&item).max(state.last);
    state.owed = state.owed - before + owed_by(&state.sessions[at]);
    push_item(&mut state.items, item);
}
