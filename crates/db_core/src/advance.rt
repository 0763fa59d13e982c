//! One turn of a session.
ghost use Rattle.std.specs.Prelude.{◌≡◌, ◌<◌, length, slice_get, Some};
ghost use Rattle.db_core.specs.Plans.{HasSums, IsPlanned};
ghost use Rattle.db_core.specs.Rooms.{HasOwnRoom};
ghost use Rattle.db_core.specs.Stages.{IsStage};
ghost use Rattle.db_core.specs.Store.{Advanced, Answers, GoesNearer, IsGood, run_is};
ghost use Rattle.db_core.specs.declared.stage.Stage.TheVariants as stages;

use crate::TurnOut;
use crate::checks::{begin_check, go_on_check};
use crate::plans::{begin_planned, used_now};
use crate::reading::geometry_of;
use crate::session::Session;
use crate::stage::{Stage, stage_of};
use crate::state::State;
use crate::statement_view::StatementView;
use crate::turns::{begin_word, go_on};
use db_plan::{Plan, PlanAt, plan};
use spec_file::NoMemory;
use spec_script::Refusal;

/// The sums by which the next statement of session `at` is planned.
fn sums_of(state: &State, at: usize) -> PlanAt
    requires at { at < length state.now.sessions.items }
    requires good { IsGood state.now }
    ensures sums { (x : Session) → slice_get state.now.sessions.items at ≡ Some x → HasSums state.now x result }
    ensures geometry { result.geometry ≡ (run_is state.now).geometry }
    ensures pages { result.pages ≡ length state.now.frames }
{
    PlanAt {
        geometry: geometry_of(&state.frames),
        pages: state.frames.count() as u32,
        used_changes: used_now(&state.sessions[at]),
        announced_changes: state.all,
        announced_bytes: state.size,
    }
}

/// The plan of the statement that comes next.
fn plan_next(state: &State, at: usize) -> Result<Plan, Refusal>
    requires at { at < length state.now.sessions.items }
    requires good { IsGood state.now }
    requires next { (x : Session) → slice_get state.now.sessions.items at ≡ Some x → IsStage x stages.Planned }
    ensures { (x : Session) → slice_get state.now.sessions.items at ≡ Some x → IsPlanned state.now at x result }
{
    let session = &state.sessions[at];
    let mut view = StatementView::of(state.alloc, state, at);
    plan(
        state.alloc,
        &session.script[session.replies.len()],
        &mut view,
        &sums_of(state, at),
    )
}

/// What a turn did that left a session so, which had so many replies before it.
fn out_of(before: usize, session: &Session) -> TurnOut
    requires { HasOwnRoom session.now }
    ensures { Answers before session.now result }
{
    if session.replies.len() > before {
        TurnOut::Answered(session.replies.len() as u32)
    } else {
        TurnOut::Moved
    }
}

/// What a turn of session `at` did, which had so many replies before it.
fn told(state: &State, at: usize, before: usize) -> TurnOut
    requires at { at < length state.now.sessions.items }
    requires good { IsGood state.now }
    ensures { (y : Session) → slice_get state.now.sessions.items at ≡ Some y → Answers before y result }
{
    out_of(before, &state.sessions[at])
}

/// A turn of session `at`, counted from 0.
pub fn advance(state: &mut State, at: usize) -> TurnOut
    requires at { at < length state.old.sessions.items }
    requires good { IsGood state.old }
    ensures advanced { Advanced at state.old state.new result }
    ensures nearer { GoesNearer at state.old state.new }
{
    let before = state.sessions[at].replies.len();
    match stage_of(&state.sessions[at]) {
        Stage::Done => TurnOut::Finished,
        Stage::UnderWay => {
            go_on(state, at);
            told(state, at, before)
        }
        Stage::Checking => {
            go_on_check(state, at);
            told(state, at, before)
        }
        Stage::Word(word) => {
            begin_word(state, at, word);
            told(state, at, before)
        }
        Stage::Planned => {
            let plan = plan_next(state, at);
            begin_planned(state, at, plan);
            told(state, at, before)
        }
        Stage::Check => match begin_check(state, at) {
            Ok(()) => TurnOut::Checking,
            Err(NoMemory) => told(state, at, before),
        },
    }
}
