// Why the file of a run was not opened.

use spec_start::FileWhy;

/// Why the file of a run was not opened.
#[derive(Clone, Copy, Debug, PartialEq, Eq)]
pub enum FileStop {
    Refused(FileWhy),
    /// The file failed in this call, and counted it.
    Failed,
    NoMemory,
}
