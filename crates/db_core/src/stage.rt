//! What a session's next turn does.
ghost use Rattle.std.specs.Prelude.{Some};
ghost use Rattle.std.specs.Option.{option_copied};
ghost use Rattle.db_core.specs.Stages.{IsStage, IsStageOf};

use crate::session::{Doing, Session};
use crate::starts::Word;
use db_plan::{Part, part_of};
use spec_script::Statement;

/// What a session's next turn does.
#[derive(Clone, Copy)]
pub enum Stage {
    /// Nothing: its script is done.
    Done,
    /// It goes on with a statement that isn't a check.
    UnderWay,
    /// It goes on with a check.
    Checking,
    /// It begins BEGIN, COMMIT or ROLLBACK.
    Word(Word),
    /// It begins a check.
    Check,
    /// It begins a statement that is planned.
    Planned,
}

/// What the next turn of a session does.
pub fn stage_of(session: &Session) -> Stage
    ensures { IsStage session.now result }
{
    match session.doing {
        Doing::Idle => statement_stage(session.script.get(session.replies.len())),
        Doing::Changing { .. } => Stage::UnderWay,
        Doing::Ending { .. } => Stage::UnderWay,
        Doing::Undoing => Stage::UnderWay,
        Doing::Checking(_) => Stage::Checking,
    }
}

/// What the turn does that begins this statement, if there is one.
fn statement_stage(statement: Option<&Statement>) -> Stage
    ensures { IsStageOf (option_copied statement.entry) result }
{
    match statement {
        None => Stage::Done,
        Some(statement) => stage_by(statement),
    }
}

/// What the turn does that begins this statement.
fn stage_by(statement: &Statement) -> Stage
    ensures { IsStageOf (Some statement.now) result }
{
    match part_of(statement) {
        Part::Begin => Stage::Word(Word::Begin),
        Part::Commit => Stage::Word(Word::Commit),
        Part::Rollback => Stage::Word(Word::Rollback),
        Part::Check => Stage::Check,
        Part::Planned => Stage::Planned,
    }
}
