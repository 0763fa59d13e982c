// The status of a run whose sessions are done, by what they were told.
ghost use Rattle.std.specs.Prelude.{◌≡◌, ◌≤◌, false, length, map};
ghost use Rattle.std.specs.List.{list_any, zip};
ghost use Rattle.spec_run.specs.Answers.{is_terminated};
ghost use Rattle.checkdb_top.specs.Runs as spec;
ghost use Rattle.checkdb_top.specs.Runs.{has_errors, ended_as};

use crate::Status;
use crate::check::has_error;
use db_core::Core;
use spec_script::{NO_MEMORY, Reply, Statement};

// A check that was answered with 701.
fn is_short(statement: &Statement, reply: &Reply) -> bool
    ensures { result ≡ spec.is_short statement.now reply.now }
{
    match (statement, reply) {
        (Statement::Check { .. }, Reply::Refused(refusal)) => refusal.number == NO_MEMORY,
        _ => false,
    }
}

fn has_short(script: &[Statement], replies: &[Reply]) -> bool
    ensures { result ≡ spec.has_short (script.now, replies.now) }
{
    script
        .iter()
        .zip(replies.iter())
        .any(|(statement, reply)| is_short(statement, reply))
}

// These are the replies of all sessions, and a check among their statements was answered with 701.
fn any_short(core: &Core, replies: &[&[Reply]]) -> bool
    requires count { length replies.now ≡ length core.now.run.scripts }
    requires few { length core.now.run.scripts ≤ 16 }
    ensures { result ≡ list_any spec.has_short (zip core.now.run.scripts (map (λ r. r.now) replies.now)) }
{
    for (k, session) in replies.iter().enumerate() {
        if has_short(core.script(k as u32 + 1), session) {
            return true;
        }
    }
    false
}

fn is_with_errors(reply: &Reply) -> bool
    ensures { result ≡ has_errors reply.now }
{
    match reply {
        Reply::Report { report, .. } => has_error(report),
        _ => false,
    }
}

fn any_with_errors(replies: &[Reply]) -> bool
    ensures { result ≡ list_any has_errors replies.now }
{
    replies.iter().any(|reply| is_with_errors(reply))
}

fn one_with_errors(replies: &[&[Reply]]) -> bool
    ensures { result ≡ list_any (λ r. list_any has_errors r.now) replies.now }
{
    replies.iter().any(|session| any_with_errors(session))
}

fn some_with_errors(replies: &[&[Reply]]) -> bool
    ensures { result ≡ list_any (list_any has_errors) (map (λ r. r.now) replies.now) }
{
    one_with_errors(replies)
}

/// The status of a run of which these are the replies, session by session, and all of whose items, pages and
/// replies are written.
pub(crate) fn ended(core: &Core, replies: &[&[Reply]]) -> Status
    requires count { length replies.now ≡ length core.now.run.scripts }
    requires few { length core.now.run.scripts ≤ 16 }
    requires none { list_any (list_any is_terminated) (map (λ r. r.now) replies.now) ≡ false }
    ensures { result ≡ ended_as core.now.run.scripts (map (λ r. r.now) replies.now) }
{
    if any_short(core, replies) {
        return Status::Memory;
    }
    if some_with_errors(replies) {
        return Status::Errors;
    }
    Status::Clean
}
