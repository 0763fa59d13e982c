//! The records of statements that need no plan: BEGIN, COMMIT, ROLLBACK, and a refusal.
ghost use Rattle.std.specs.Prelude.{◌≡◌, ◌+◌, ◌^◌, ◌<◌, [], ◌∷◌, ◌++◌, vec_len, vec_capacity, None};
ghost use Rattle.spec_run.specs.Shapes.{plain_start as start_of};
ghost use Rattle.spec_script.specs.declared.reply.Reply.TheVariants.{Done, Refused};
ghost use Rattle.db_core.specs.States.{Keeps, KeepsRoom};
ghost use Rattle.db_core.specs.declared.session.Doing.TheVariants.{Idle, Ending, Undoing};
ghost use Rattle.db_core.specs.Words.{StartsBy, IsEnded, IsRefusal};

use crate::session::{Doing, Session};
use crate::steps::end;
use spec_file::Tran;
use spec_log::{Record, Values};
use spec_script::{IS_OPEN, NOTHING_TO_COMMIT, NOTHING_TO_UNDO, Refusal, Reply, Statement};
use std::alloc::Global;

/// Which statement of which session, both from 1.
#[derive(Clone, Copy)]
pub struct StatementNo {
    pub session: u16,
    pub index: u32,
}

/// A statement that needs no plan.
#[derive(Clone, Copy)]
pub enum Word {
    Begin,
    Commit,
    Rollback,
}

/// The Start of a statement without changes.
pub fn plain_start(alloc: Global, place: StatementNo, tran: u64, number: u16) -> Record
    ensures { result ≡ start_of place.session place.index tran number }
{
    Record::Start {
        session: place.session,
        index: place.index,
        tran: Tran(tran),
        number,
        changes: 0,
        size: 0,
        takes: Values::new(alloc),
    }
}

/// The statement is refused, with what refuses it, and its transaction stands as before.
pub fn refuse_by(
    alloc: Global,
    session: &mut Session,
    place: StatementNo,
    refusal: Refusal,
) -> Record
    requires { vec_len session.old.replies < vec_capacity session.old.replies }
    ensures ended { IsEnded place refusal.number (Refused refusal) session.old session.new result }
    ensures kept_room { KeepsRoom session.old session.new }
{
    let number = refusal.number;
    let tran = session.tran;
    end(session, Reply::Refused(refusal));
    plain_start(alloc, place, tran, number)
}

/// The same by a refusal that names nothing.
pub fn refuse(alloc: Global, session: &mut Session, place: StatementNo, number: u16) -> Record
    requires { vec_len session.old.replies < vec_capacity session.old.replies }
    ensures ended { IsRefusal place number session.old session.new result }
    ensures kept_room { KeepsRoom session.old session.new }
{
    refuse_by(alloc, session, place, Refusal::plain(alloc, number))
}

/// BEGIN: the session has this transaction open from here on.
pub fn open(alloc: Global, session: &mut Session, place: StatementNo, tran: u64) -> Record
    requires { vec_len session.old.replies < vec_capacity session.old.replies }
    ensures item { result ≡ start_of place.session place.index tran 0 }
    ensures script { session.new.script.items ≡ session.old.script.items }
    ensures tran { session.new.tran ≡ tran }
    ensures kept_room { KeepsRoom session.old session.new }
    ensures left { session.new.left.items ≡ [] }
    ensures held { session.new.held.items ≡ [] }
    ensures used { session.new.used ≡ 0 }
    ensures replies { session.new.replies.items ≡ session.old.replies.items ++ Done ∷ [] }
    ensures doing { session.new.doing ≡ Idle }
{
    session.tran = tran;
    session.left.clear();
    session.held.clear();
    session.used = 0;
    end(session, Reply::Done);
    plain_start(alloc, place, tran, 0)
}

/// COMMIT: the Commit of the session's transaction comes next.
pub fn start_commit(alloc: Global, session: &mut Session, place: StatementNo) -> Record
    ensures item { result ≡ start_of place.session place.index session.old.tran 0 }
    ensures kept { Keeps session.old session.new }
    ensures kept_room { KeepsRoom session.old session.new }
    ensures left { session.new.left.items ≡ session.old.left.items }
    ensures replies { session.new.replies.items ≡ session.old.replies.items }
    ensures doing { session.new.doing ≡ Ending Done }
{
    session.doing = Doing::Ending { reply: Reply::Done };
    plain_start(alloc, place, session.tran, 0)
}

/// ROLLBACK: the changes of the session's transaction are undone next.
pub fn start_undo(alloc: Global, session: &mut Session, place: StatementNo) -> Record
    ensures item { result ≡ start_of place.session place.index session.old.tran 0 }
    ensures kept { Keeps session.old session.new }
    ensures kept_room { KeepsRoom session.old session.new }
    ensures left { session.new.left.items ≡ session.old.left.items }
    ensures replies { session.new.replies.items ≡ session.old.replies.items }
    ensures doing { session.new.doing ≡ Undoing }
{
    session.doing = Doing::Undoing;
    plain_start(alloc, place, session.tran, 0)
}

/// The record of a statement that needs no plan; `last` is the greatest transaction so far.
pub fn start(
    alloc: Global,
    session: &mut Session,
    place: StatementNo,
    last: u64,
    word: Word,
) -> Record
    requires room { vec_len session.old.replies < vec_capacity session.old.replies }
    requires low { last + 1 < 2 ^ 64 }
    ensures starts { StartsBy word last place session.old session.new result }
    ensures kept_room { KeepsRoom session.old session.new }
{
    let open_now = session.tran != 0;
    match word {
        Word::Begin => {
            if open_now {
                return refuse(alloc, session, place, IS_OPEN);
            }
            open(alloc, session, place, last + 1)
        }
        Word::Commit => {
            if open_now {
                return start_commit(alloc, session, place);
            }
            refuse(alloc, session, place, NOTHING_TO_COMMIT)
        }
        Word::Rollback => {
            if open_now {
                return start_undo(alloc, session, place);
            }
            refuse(alloc, session, place, NOTHING_TO_UNDO)
        }
    }
}
