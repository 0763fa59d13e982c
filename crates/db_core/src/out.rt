/// What a turn of a session did.
#[derive(Clone, Copy, Debug, PartialEq, Eq)]
pub enum TurnOut {
    /// Nothing: its script is done.
    Finished,
    /// It ended this statement, counted from 1.
    Answered(u32),
    /// It appended the Snap of a check, and the check goes on.
    Checking,
    /// Anything else.
    Moved,
}
