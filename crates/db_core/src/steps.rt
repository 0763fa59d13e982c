//! The steps of a statement that is under way.
ghost use Rattle.std.specs.Prelude.{◌≡◌, ◌+◌, ◌-◌, ◌<◌, ◌≤◌, [], ◌∷◌, ◌++◌, length, reverse, slice_get, Some, vec_len, vec_capacity};
ghost use Rattle.spec_log.specs.declared.limits.TheConstants.{MOST_CHANGES};
ghost use Rattle.spec_file.specs.declared.data.Tran.{Tran};
ghost use Rattle.spec_log.specs.declared.item.Record.TheVariants.{Commit};
ghost use Rattle.spec_log.specs.Cells.{put as image_with};
ghost use Rattle.spec_log.specs.Images.{page_of_cell, put_before};
ghost use Rattle.spec_log.specs.declared.item.Record.{Record};
ghost use Rattle.spec_run.specs.Shapes.{change_item};
ghost use Rattle.vol_pool.specs.Cells.{FitsCell, MayPutBack, MayUndo};
ghost use Rattle.db_core.specs.Rooms.{pending_of};
ghost use Rattle.db_core.specs.States.{GoesOnWith, Keeps, StepsBack, IsUnderWay, KeepsRoom, MayStep, StepsBy};
ghost use Rattle.db_core.specs.declared.session.Doing.TheVariants.{Idle};

use crate::session::{Doing, Session};
use spec_file::{Lsn, Tran};
use spec_log::Record;
use spec_plan::Planned;
use spec_script::Reply;
use std::mem::replace;
use vol_pool::Frames;

/// The statement ends with this reply.
pub fn end(session: &mut Session, reply: Reply)
    requires { vec_len session.old.replies < vec_capacity session.old.replies }
    ensures kept { Keeps session.old session.new }
    ensures kept_room { KeepsRoom session.old session.new }
    ensures left { session.new.left.items ≡ session.old.left.items }
    ensures replies { session.new.replies.items ≡ session.old.replies.items ++ reply ∷ [] }
    ensures doing { session.new.doing ≡ Idle }
{
    session.doing = Doing::Idle;
    match session.replies.push(reply) {
        Ok(()) => {}
        Err(_) => unreachable!(),
    }
}

/// What a session does behind a change: the rest of them, or the Commit, or nothing more.
pub fn go_on(session: &mut Session, mut later: Vec<Planned>, own: bool, reply: Reply)
    requires { vec_len session.old.replies < vec_capacity session.old.replies }
    ensures kept { Keeps session.old session.new }
    ensures kept_room { KeepsRoom session.old session.new }
    ensures left { session.new.left.items ≡ session.old.left.items }
    ensures goes { GoesOnWith (reverse later.items) own reply session.old session.new }
{
    match later.pop() {
        Some(next) => {
            session.doing = Doing::Changing {
                next,
                later,
                own,
                reply,
            };
        }
        None => {
            if own {
                session.doing = Doing::Ending { reply };
            } else {
                end(session, reply);
            }
        }
    }
}

/// The number of a change, which is left to undo from here on.
fn push_left(session: &mut Session, number: u64)
    requires { vec_len session.old.left < vec_capacity session.old.left }
    ensures kept { Keeps session.old session.new }
    ensures kept_room { KeepsRoom session.old session.new }
    ensures left { session.new.left.items ≡ session.old.left.items ++ number ∷ [] }
    ensures replies { session.new.replies.items ≡ session.old.replies.items }
    ensures room { vec_len session.new.replies ≡ vec_len session.old.replies }
    ensures room_is { vec_capacity session.new.replies ≡ vec_capacity session.old.replies }
{
    match session.left.push(number) {
        Ok(()) => {}
        Err(_) => unreachable!(),
    }
}

/// Makes a change, whose item has this number.
pub fn make_change(session: &mut Session, frames: &mut Frames, number: u64, next: Planned) -> Record
    requires room { vec_len session.old.left < vec_capacity session.old.left }
    requires inside { page_of_cell next.cell < length frames.old }
    requires fits { FitsCell next.cell next.after }
    ensures item { result ≡ change_item session.old.tran next }
    ensures pages { frames.new ≡ image_with frames.old next.cell next.after }
    ensures kept { Keeps session.old session.new }
    ensures kept_room { KeepsRoom session.old session.new }
    ensures left { session.new.left.items ≡ session.old.left.items ++ number ∷ [] }
    ensures replies { session.new.replies.items ≡ session.old.replies.items }
    ensures room { vec_len session.new.replies ≡ vec_len session.old.replies }
    ensures room_is { vec_capacity session.new.replies ≡ vec_capacity session.old.replies }
{
    let tran = Tran(session.tran);
    let Planned {
        cell,
        before,
        after,
    } = next;
    frames.put(cell, after.as_slice());
    push_left(session, number);
    Record::Change {
        tran,
        cell,
        before,
        after,
    }
}

/// Ends the session's transaction: it holds nothing, and nothing of it is left to undo.
fn close(session: &mut Session)
    ensures script { session.new.script.items ≡ session.old.script.items }
    ensures tran { session.new.tran ≡ 0 }
    ensures kept_room { KeepsRoom session.old session.new }
    ensures replies { session.new.replies.items ≡ session.old.replies.items }
    ensures room { vec_len session.new.replies ≡ vec_len session.old.replies }
    ensures room_is { vec_capacity session.new.replies ≡ vec_capacity session.old.replies }
    ensures left { session.new.left.items ≡ [] }
    ensures held { session.new.held.items ≡ [] }
    ensures used { session.new.used ≡ 0 }
{
    session.tran = 0;
    session.left.clear();
    session.held.clear();
    session.used = 0;
}

/// Commits the session's transaction, and ends the statement.
pub fn commit(session: &mut Session, reply: Reply) -> Record
    requires { vec_len session.old.replies < vec_capacity session.old.replies }
    ensures item { result ≡ Commit (record { 0 = session.old.tran }) }
    ensures script { session.new.script.items ≡ session.old.script.items }
    ensures used { session.new.used ≤ MOST_CHANGES }
    ensures tran { session.new.tran ≡ 0 }
    ensures kept_room { KeepsRoom session.old session.new }
    ensures left { session.new.left.items ≡ [] }
    ensures replies { session.new.replies.items ≡ session.old.replies.items ++ reply ∷ [] }
    ensures doing { session.new.doing ≡ Idle }
{
    let tran = Tran(session.tran);
    close(session);
    end(session, reply);
    Record::Commit { tran }
}

/// Puts back what a Change had found.
fn put_back(frames: &mut Frames, item: &Record)
    requires { MayPutBack frames.old item.now }
    ensures { frames.new ≡ put_before (Some item.now) frames.old }
{
    if let Record::Change { cell, before, .. } = item {
        frames.put(*cell, before.as_slice());
    }
}

/// Puts back what the Change with this number had found.
fn put_back_at(frames: &mut Frames, items: &[Record], number: u64)
    requires above { 0 < number }
    requires within { number ≤ length items.now }
    requires fits { (x : Record) → slice_get items.now (number - 1) ≡ Some x → MayPutBack frames.old x }
    ensures { frames.new ≡ put_before (slice_get items.now (number - 1)) frames.old }
{
    if let Some(item) = items.get((number - 1) as usize) {
        put_back(frames, item);
    }
}

/// Undoes the last change that is left, or ends the transaction where none is.
pub fn step_back(session: &mut Session, frames: &mut Frames, items: &[Record]) -> Record
    requires room { vec_len session.old.replies < vec_capacity session.old.replies }
    requires fits { MayUndo frames.old items.now (reverse session.old.left.items) }
    ensures back { StepsBack (reverse session.old.left.items) items.now session.old session.new frames.old frames.new result }
    ensures kept_room { KeepsRoom session.old session.new }
{
    let tran = Tran(session.tran);
    match session.left.pop() {
        Some(number) => {
            put_back_at(frames, items, number);
            session.doing = Doing::Undoing;
            Record::Undo {
                tran,
                change: Lsn(number),
            }
        }
        None => {
            close(session);
            end(session, Reply::Done);
            Record::Abort { tran }
        }
    }
}

/// The next step of a statement that is under way, whose item has this number.
pub fn step(session: &mut Session, frames: &mut Frames, items: &[Record], number: u64) -> Record
    requires under_way { IsUnderWay session.old.doing }
    requires replies { vec_len session.old.replies < vec_capacity session.old.replies }
    requires left { length session.old.left.items + pending_of session.old.doing ≤ vec_capacity session.old.left }
    requires fits { MayStep frames.old items.now session.old session.old.doing }
    ensures steps { StepsBy number items.now session.old session.new frames.old frames.new result session.old.doing }
    ensures kept_room { KeepsRoom session.old session.new }
{
    match replace(&mut session.doing, Doing::Idle) {
        Doing::Changing {
            next,
            later,
            own,
            reply,
        } => {
            let item = make_change(session, frames, number, next);
            go_on(session, later, own, reply);
            item
        }
        Doing::Ending { reply } => commit(session, reply),
        Doing::Undoing => step_back(session, frames, items),
        Doing::Idle => unreachable!(),
        Doing::Checking { .. } => unreachable!(),
    }
}
