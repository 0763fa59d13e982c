//! The words in which the crates above speak of scripts and of what they answer: statements, replies
//! and refusals as plain data, and, in `specs/`, which texts are scripts and schedules, which line is
//! the first that is none, and the text of replies. The script language and all texts are this
//! project's own.
#![tactic(auto)]

mod limits;
mod name;
mod reply;
mod statement;
mod stop;

pub use limits::{
    BAD_PAGE, HELD, IS_OPEN, LOG_FULL, LONGEST_TEXT, MOST_LINES, MOST_TURNS, MOST_WORKERS,
    NO_MEMORY, NO_ROOM, NO_TABLE, NOTHING_TO_COMMIT, NOTHING_TO_UNDO, READ_FAULT, SAME_KEY,
    SAME_NAME, TOO_MANY_TABLES, USUAL_WORKERS,
};
pub use name::Name;
pub use reply::{Cause, Refusal, Reply};
pub use statement::Statement;
pub use stop::ScriptWhy;
