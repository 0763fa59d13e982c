//! The turns of a whole run.
ghost use Rattle.std.specs.Prelude.{◌≡◌, ◌<◌, ◌≤◌, length, slice_get, Some, ℕ, true, false, MatchBool};
ghost use Rattle.db_core.specs.Replays.{EndsSession, EndsSessions, EndsStatement, IsDoneSession, MayGoOn, RunsTurns, RunsSchedule};
ghost use Rattle.db_core.specs.Store.{IsGood};
ghost use Rattle.db_core.specs.declared.out.TurnOut.TheVariants as outs;
ghost use Rattle.db_core.specs.declared.session.Doing.TheVariants.{Idle};
ghost use Rattle.db_core.specs.declared.session.Session.{Session as AnySession};

use crate::TurnOut;
use crate::advance::advance;
use crate::session::{Doing, Session};
use crate::state::State;

/// Whether a session is in the middle of a statement.
fn is_busy(session: &Session) -> bool
    ensures { MatchBool result (session.now.doing ≡ Idle → ⊥) (session.now.doing ≡ Idle) }
{
    match session.doing {
        Doing::Idle => false,
        Doing::Changing { .. } => true,
        Doing::Ending { .. } => true,
        Doing::Undoing => true,
        Doing::Checking(_) => true,
    }
}

/// Whether a session's script is done.
fn is_done(session: &Session) -> bool
    ensures { MatchBool result (IsDoneSession session.now) (MayGoOn session.now) }
{
    if is_busy(session) {
        return false;
    }
    session.replies.len() >= session.script.len()
}

/// Turns of session `at` to the end of a statement.
fn finish_statement(state: &mut State, at: usize)
    requires at { at < length state.old.sessions.items }
    requires good { IsGood state.old }
    requires more { (x : AnySession) → slice_get state.old.sessions.items at ≡ Some x → MayGoOn x }
    ensures { EndsStatement at state.old state.new }
{
    let _first = advance(state, at);
    'turns: while is_busy(&state.sessions[at]) {
        let _next = advance(state, at);
    }
}

/// Turns of session `at` to the end of its script.
fn finish(state: &mut State, at: usize)
    requires at { at < length state.old.sessions.items }
    requires good { IsGood state.old }
    ensures { EndsSession at state.old state.new }
{
    'statements: while !is_done(&state.sessions[at]) {
        finish_statement(state, at);
    }
}

/// Each session's turns, rising, to its end.
pub fn finish_all(state: &mut State)
    requires { IsGood state.old }
    ensures { EndsSessions state.old state.new }
{
    'sessions: for at in 0..state.sessions.len() {
        finish(state, at);
    }
}

/// Whether a turn found its session's script done.
fn is_finished(out: TurnOut) -> bool
    ensures { MatchBool result (out ≡ outs.Finished) (out ≡ outs.Finished → ⊥) }
{
    match out {
        TurnOut::Finished => true,
        TurnOut::Answered(_) => false,
        TurnOut::Checking => false,
        TurnOut::Moved => false,
    }
}

/// So many turns of session `at`.
fn run_turns(state: &mut State, at: usize, count: u32)
    requires at { at < length state.old.sessions.items }
    requires good { IsGood state.old }
    ensures { RunsTurns at count state.old state.new }
{
    'turns: for _ in 0..count {
        let out = advance(state, at);
        if is_finished(out) {
            return;
        }
    }
}

/// The turns of a schedule.
pub fn run_schedule(state: &mut State, schedule: &[(u32, u32)])
    requires good { IsGood state.old }
    requires inside { (k : ℕ) (p : ℕ × ℕ) → slice_get schedule.now k ≡ Some p → (0 < p.0) × (p.0 ≤ length state.old.sessions.items) }
    ensures { RunsSchedule schedule.now state.old state.new }
{
    'lines: for (session, count) in schedule {
        run_turns(state, *session as usize - 1, *count);
    }
}
