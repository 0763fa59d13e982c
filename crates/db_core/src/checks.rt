//! The turns of a check.
ghost use Rattle.std.specs.Prelude.{◌≡◌, ◌+◌, ◌<◌, length, slice_get, Some, true, false, IfOk, OnOk, vec_len, vec_capacity};
ghost use Rattle.db_core.specs.Back.{MayGoBack};
ghost use Rattle.db_core.specs.Checks.{BacksIn, Begins, Checked, EndsAtOnce, EndsBy, IsChecking, IsFresh, MayReadIn, ReadsIn, ReadsOr, Snapped, SnapsOr, StaysAs, TakesCheck};
ghost use Rattle.db_core.specs.Reading as phases;
ghost use Rattle.db_core.specs.Stages.{IsStage};
ghost use Rattle.db_core.specs.Store.{IsGood, IsNearer};
ghost use Rattle.db_core.specs.declared.session.Doing.TheVariants.{Checking};
ghost use Rattle.db_core.specs.declared.stage.Stage.TheVariants as stage;

use crate::back::go_back;
use crate::holders::ongoing;
use crate::reading::{is_back, is_read, read_on, report_of};
use crate::session::{Check, Doing, Phase, Session};
use crate::starts::StatementNo;
use crate::state::{State, owed_by, settle};
use crate::steps::end;
use crate::turns::place_of;
use spec_file::{Lsn, NoMemory};
use spec_log::{REPORTED, Record, SHORT};
use spec_script::{NO_MEMORY, Refusal, Reply};
use std::alloc::Global;
use std::mem::replace;
use vol_pool::Frames;

/// Whether a session's check takes items back.
fn is_back_in(session: &Session) -> bool
    requires { IsChecking session.now.doing }
    ensures { (check : Check) → session.now.doing ≡ Checking check → result ≡ phases.is_back check.phase }
{
    match &session.doing {
        Doing::Checking(check) => is_back(&check.phase),
        _ => unreachable!(),
    }
}

/// Whether a session's check has read all extents.
fn is_read_in(session: &Session) -> bool
    requires { IsChecking session.now.doing }
    ensures { (check : Check) → session.now.doing ≡ Checking check → result ≡ phases.is_read check.phase }
{
    match &session.doing {
        Doing::Checking(check) => is_read(&check.phase),
        _ => unreachable!(),
    }
}

/// One step back in a session's check.
fn back_in(session: &mut Session, items: &[Record])
    requires checking { IsChecking session.old.doing }
    requires fits { (check : Check) → session.old.doing ≡ Checking check → MayGoBack items.now check }
    ensures { BacksIn items.now session.old session.new }
{
    match &mut session.doing {
        Doing::Checking(check) => go_back(check, items),
        _ => unreachable!(),
    }
}

/// The maps or an extent more in a session's check.
fn read_in(alloc: Global, session: &mut Session) -> Result<(), NoMemory>
    requires checking { IsChecking session.old.doing }
    requires may { MayReadIn session.old }
    requires more { (check : Check) → session.old.doing ≡ Checking check → phases.is_read check.phase ≡ false }
    ensures reads { OnOk result (ReadsIn session.old session.new) }
    ensures stays { StaysAs session.old session.new }
{
    match &mut session.doing {
        Doing::Checking(check) => read_on(alloc, &check.pages, &mut check.phase),
        _ => unreachable!(),
    }
}

/// A session's check, in the middle of which it no longer is.
fn take_check(session: &mut Session) -> Check
    requires { IsChecking session.old.doing }
    ensures { TakesCheck result session.old session.new }
{
    match replace(&mut session.doing, Doing::Idle) {
        Doing::Checking(check) => check,
        _ => unreachable!(),
    }
}

/// The end of a session's check.
fn end_in(alloc: Global, session: &mut Session, place: StatementNo) -> Record
    requires room { vec_len session.old.replies < vec_capacity session.old.replies }
    requires checking { IsChecking session.old.doing }
    requires may { MayReadIn session.old }
    requires read { (check : Check) → session.old.doing ≡ Checking check → phases.is_read check.phase ≡ true }
    ensures { EndsBy place session.old session.new result }
{
    let Check {
        point,
        pages,
        phase,
        ..
    } = take_check(session);
    let lsn = Lsn(point);
    match report_of(alloc, &pages, phase) {
        Ok(report) => {
            end(session, Reply::Report { lsn, report });
            Record::CheckEnd {
                session: place.session,
                index: place.index,
                outcome: REPORTED,
            }
        }
        Err(NoMemory) => short_end(alloc, session, place),
    }
}

/// One turn of reading in a session's check: the maps, an extent, or its end. Where there is no memory it
/// ends too.
fn read_or_end(alloc: Global, session: &mut Session, place: StatementNo) -> Option<Record>
    requires room { vec_len session.old.replies < vec_capacity session.old.replies }
    requires checking { IsChecking session.old.doing }
    requires may { MayReadIn session.old }
    ensures { ReadsOr place session.old session.new result }
{
    if is_read_in(session) {
        return Some(end_in(alloc, session, place));
    }
    match read_in(alloc, session) {
        Ok(()) => None,
        Err(NoMemory) => Some(short_end(alloc, session, place)),
    }
}

/// The end of a check for want of memory.
fn short_end(alloc: Global, session: &mut Session, place: StatementNo) -> Record
    requires { vec_len session.old.replies < vec_capacity session.old.replies }
    ensures { EndsAtOnce place session.old session.new result }
{
    end(session, Reply::Refused(Refusal::plain(alloc, NO_MEMORY)));
    Record::CheckEnd {
        session: place.session,
        index: place.index,
        outcome: SHORT,
    }
}

/// The pages as they stand, as a check's with this Snap.
fn fresh_check(
    alloc: Global,
    point: u64,
    pages: &Frames,
    sessions: &[Session],
) -> Result<Check, NoMemory>
    requires { 0 < point }
    ensures { IfOk result (IsFresh point pages.now sessions.now) }
{
    let pages = pages.copied(alloc)?;
    let ongoing = ongoing(alloc, sessions)?;
    Ok(Check {
        point,
        pages,
        ongoing,
        place: (point - 1) as usize,
        phase: Phase::Back,
    })
}

/// The Snap of a session's check.
fn begin_in(session: &mut Session, place: StatementNo, check: Check) -> Record
    ensures { Begins place check session.old session.new result }
{
    session.doing = Doing::Checking(check);
    Record::Snap {
        session: place.session,
        index: place.index,
    }
}

/// Takes one item back, or finds that none is left.
fn back_turn(state: &mut State, at: usize)
    requires at { at < length state.old.sessions.items }
    requires good { IsGood state.old }
    requires checking { (x : Session) → slice_get state.old.sessions.items at ≡ Some x → IsStage x stage.Checking }
    requires back { (x : Session) (check : Check) → slice_get state.old.sessions.items at ≡ Some x → x.doing ≡ Checking check → phases.is_back check.phase ≡ true }
    ensures checked { Checked at state.old state.new }
    ensures nearer { IsNearer at state.old state.new }
{
    back_in(&mut state.sessions[at], &state.items);
}

/// Reads on in a check that has taken everything back, or ends it.
fn read_turn(state: &mut State, at: usize)
    requires at { at < length state.old.sessions.items }
    requires good { IsGood state.old }
    requires checking { (x : Session) → slice_get state.old.sessions.items at ≡ Some x → IsStage x stage.Checking }
    requires behind { (x : Session) (check : Check) → slice_get state.old.sessions.items at ≡ Some x → x.doing ≡ Checking check → phases.is_back check.phase ≡ false }
    ensures checked { Checked at state.old state.new }
    ensures nearer { IsNearer at state.old state.new }
{
    let before = owed_by(&state.sessions[at]);
    let place = place_of(at, &state.sessions[at]);
    match read_or_end(state.alloc, &mut state.sessions[at], place) {
        None => {}
        Some(item) => settle(state, at, before, item),
    }
}

/// The next step of a check that is under way.
pub fn go_on_check(state: &mut State, at: usize)
    requires at { at < length state.old.sessions.items }
    requires good { IsGood state.old }
    requires checking { (x : Session) → slice_get state.old.sessions.items at ≡ Some x → IsStage x stage.Checking }
    ensures checked { Checked at state.old state.new }
    ensures nearer { IsNearer at state.old state.new }
{
    if is_back_in(&state.sessions[at]) {
        back_turn(state, at);
    } else {
        read_turn(state, at);
    }
}

/// Appends the Snap of a check that goes on.
fn snap_turn(state: &mut State, at: usize, check: Check)
    requires at { at < length state.old.sessions.items }
    requires good { IsGood state.old }
    requires next { (x : Session) → slice_get state.old.sessions.items at ≡ Some x → IsStage x stage.Check }
    requires fresh { IsFresh (length state.old.items.items + 1) state.old.frames state.old.sessions.items check }
    ensures { Snapped at state.old state.new }
{
    let before = owed_by(&state.sessions[at]);
    let place = place_of(at, &state.sessions[at]);
    let item = begin_in(&mut state.sessions[at], place, check);
    settle(state, at, before, item);
}

/// Appends the Snap of a check that finds no memory, and its end.
fn short_turn(state: &mut State, at: usize)
    requires at { at < length state.old.sessions.items }
    requires good { IsGood state.old }
    requires next { (x : Session) → slice_get state.old.sessions.items at ≡ Some x → IsStage x stage.Check }
    ensures { Checked at state.old state.new }
{
    let before = owed_by(&state.sessions[at]);
    let place = place_of(at, &state.sessions[at]);
    let snap = Record::Snap {
        session: place.session,
        index: place.index,
    };
    settle(state, at, before, snap);
    let end = short_end(state.alloc, &mut state.sessions[at], place);
    settle(state, at, before, end);
}

/// A check begins; where there is no memory for its pages it ends at once.
pub fn begin_check(state: &mut State, at: usize) -> Result<(), NoMemory>
    requires at { at < length state.old.sessions.items }
    requires good { IsGood state.old }
    requires next { (x : Session) → slice_get state.old.sessions.items at ≡ Some x → IsStage x stage.Check }
    ensures { SnapsOr at state.old state.new result }
{
    let point = state.items.len() as u64 + 1;
    match fresh_check(state.alloc, point, &state.frames, &state.sessions) {
        Ok(check) => {
            snap_turn(state, at, check);
            Ok(())
        }
        Err(NoMemory) => {
            short_turn(state, at);
            Err(NoMemory)
        }
    }
}
