//! Turns of a session by what it is in the middle of, but for checks.
ghost use Rattle.std.specs.Prelude.{◌≡◌, ◌+◌, ◌<◌, length, slice_get, Some};
ghost use Rattle.db_core.specs.States.{IsUnderWay};
ghost use Rattle.db_core.specs.Rooms.{HasOwnRoom};
ghost use Rattle.db_core.specs.Store.{IsGood, IsNearer, Went};
ghost use Rattle.db_core.specs.Words.{IsNextWord};

use crate::session::Session;
use crate::starts::{StatementNo, Word, start};
use crate::state::{State, owed_by, settle};
use crate::steps::step;

/// The next step of a statement that is under way and isn't a check.
pub fn go_on(state: &mut State, at: usize)
    requires at { at < length state.old.sessions.items }
    requires good { IsGood state.old }
    requires under_way { (x : Session) → slice_get state.old.sessions.items at ≡ Some x → IsUnderWay x.doing }
    ensures went { Went at state.old state.new }
    ensures nearer { IsNearer at state.old state.new }
{
    let before = owed_by(&state.sessions[at]);
    let number = state.items.len() as u64 + 1;
    let item = step(
        &mut state.sessions[at],
        &mut state.frames,
        &state.items,
        number,
    );
    settle(state, at, before, item);
}

/// Which statement of session `at` comes next.
pub fn place_of(at: usize, session: &Session) -> StatementNo
    requires few { at < 16 }
    requires own { HasOwnRoom session.now }
    ensures session { result.session ≡ at + 1 }
    ensures index { result.index ≡ length session.now.replies.items + 1 }
{
    StatementNo {
        session: at as u16 + 1,
        index: session.replies.len() as u32 + 1,
    }
}

/// BEGIN, COMMIT or ROLLBACK begins.
pub fn begin_word(state: &mut State, at: usize, word: Word)
    requires at { at < length state.old.sessions.items }
    requires good { IsGood state.old }
    requires next { (x : Session) → slice_get state.old.sessions.items at ≡ Some x → IsNextWord word x }
    ensures went { Went at state.old state.new }
{
    let before = owed_by(&state.sessions[at]);
    let place = place_of(at, &state.sessions[at]);
    let item = start(
        state.alloc,
        &mut state.sessions[at],
        place,
        state.last,
        word,
    );
    settle(state, at, before, item);
}
