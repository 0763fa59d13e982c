//! Sessions that have done nothing yet.
ghost use Rattle.std.specs.Prelude.{◌≡◌, ◌+◌, ◌<◌, ◌≤◌, ◌^◌, map, slice_get, sum_by, Some, IfOk, ℕ, vec_len, vec_capacity};
ghost use Rattle.db_core.specs.Rooms as rooms;
ghost use Rattle.db_core.specs.declared.session.Session.{Session as AnySession};
ghost use Rattle.db_core.specs.Runs.{AreNew, IsNew};

use crate::session::{Doing, Session};
use crate::state::owed_by;
use spec_file::NoMemory;
use spec_log::Record;
use spec_script::Statement;
use std::alloc::Global;

/// A session with this script, and room for all its replies.
fn session_of(alloc: Global, script: Vec<Statement>) -> Result<Session, NoMemory>
    ensures { IfOk result (IsNew script.items) }
{
    let mut replies = Vec::new(alloc);
    replies.reserve(script.len())?;
    Ok(Session {
        script,
        replies,
        tran: 0,
        left: Vec::new(alloc),
        held: Vec::new(alloc),
        used: 0,
        doing: Doing::Idle,
    })
}

/// A session for each script.
pub fn sessions_of(alloc: Global, scripts: Vec<Vec<Statement>>) -> Result<Vec<Session>, NoMemory>
    ensures { IfOk result (λ sessions. AreNew (map (λ s. s.items) scripts.items) sessions.items) }
{
    let mut sessions = Vec::new(alloc);
    for script in scripts {
        sessions.push(session_of(alloc, script)?)?;
    }
    Ok(sessions)
}

/// For how many items of all sessions there has to be room.
fn owed_by_all(sessions: &[Session]) -> usize
    requires room { (k : ℕ) (x : AnySession) → slice_get sessions.now k ≡ Some x → rooms.HasOwnRoom x }
    requires low { sum_by rooms.owed_by sessions.now < 2 ^ 63 }
    ensures { result ≡ sum_by rooms.owed_by sessions.now }
{
    let mut owed = 0;
    for session in sessions {
        owed += owed_by(session);
    }
    owed
}

/// Room for the items that these sessions owe, and for how many that is.
pub fn room_for_all(items: &mut Vec<Record>, sessions: &[Session]) -> Result<usize, NoMemory>
    requires room { (k : ℕ) (x : AnySession) → slice_get sessions.now k ≡ Some x → rooms.HasOwnRoom x }
    requires low { sum_by rooms.owed_by sessions.now < 2 ^ 63 }
    ensures owed { IfOk result (λ owed. (owed ≡ sum_by rooms.owed_by sessions.now) × (vec_len items.new + owed ≤ vec_capacity items.new)) }
    ensures items { items.new.items ≡ items.old.items }
{
    let owed = owed_by_all(sessions);
    items.reserve(owed)?;
    Ok(owed)
}
