/// Why a text is no script, or no schedule (the limits are this project's own).
#[derive(Clone, Copy, Debug, PartialEq, Eq)]
pub enum ScriptWhy {
    /// A line is none of the language.
    Statement,
    /// A line of the language stands behind `MOST_LINES` others.
    Many,
    /// The text has more than `LONGEST_TEXT` bytes.
    Size,
}
