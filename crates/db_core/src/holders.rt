//! What the transactions of sessions hold.
ghost use Rattle.std.specs.Prelude.{◌≡◌, ◌==◌, not, map, filter, find, option_map, IfOk};
ghost use Rattle.std.specs.List.{list_any};
ghost use Rattle.spec_log.specs.Items.{is_same as same_resource};
ghost use Rattle.db_core.specs.Views.{has_held, holds_beside, open_trans};

use crate::session::Session;
use spec_file::{NoMemory, Resource, Tran};
use std::alloc::{AllocError, Global};

/// Both are the same resource.
pub fn is_same(r: Resource, s: Resource) -> bool
    ensures { result ≡ same_resource r s }
{
    r == s
}

/// The resource is one of these.
pub fn contains(held: &[Resource], r: Resource) -> bool
    ensures { result ≡ list_any (same_resource r) held.now }
{
    held.iter().any(|s| is_same(r, *s))
}

/// Whether the session's transaction holds a resource.
pub fn holds(session: &Session, r: Resource) -> bool
    ensures { result ≡ has_held session.now r }
{
    session.tran != 0 && contains(&session.held, r)
}

/// Whether the session's transaction isn't t and holds a resource.
fn holds_as_other(session: &Session, r: Resource, t: u64) -> bool
    ensures { result ≡ holds_beside r t session.now }
{
    holds(session, r) && session.tran != t
}

/// The transaction other than t that holds a resource.
pub fn holder_among(sessions: &[Session], r: Resource, t: u64) -> Option<Tran>
    ensures { result ≡ option_map (λ x. record { 0 = x.tran }) (find (holds_beside r t) sessions.now) }
{
    sessions
        .iter()
        .find(|x| holds_as_other(x, r, t))
        .map(|x| Tran(x.tran))
}

/// The transactions of sessions that have one open.
fn collected(alloc: Global, sessions: &[Session]) -> Result<Vec<u64>, AllocError>
    ensures { IfOk result (λ trans. trans.items ≡ map (λ x. x.tran) (filter (λ x. not (x.tran == 0)) sessions.now)) }
{
    sessions
        .iter()
        .filter(|x| x.tran != 0)
        .map(|x| x.tran)
        .collect(alloc)
}

/// The transactions that are open.
pub fn ongoing(alloc: Global, sessions: &[Session]) -> Result<Vec<u64>, NoMemory>
    ensures { IfOk result (λ trans. trans.items ≡ open_trans sessions.now) }
{
    Ok(collected(alloc, sessions)?)
}
