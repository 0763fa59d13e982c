use crate::Name;
use spec_log::Values;

/// One statement of a script (this project's own).
#[derive(Debug, Drop)]
pub enum Statement {
    Begin,
    Commit,
    Rollback,
    /// A new table, a heap.
    CreateHeap(Name),
    /// A table goes.
    Drop(Name),
    /// One more row of a table.
    Insert {
        table: Name,
        key: u64,
        payload: Values<u8>,
    },
    /// How many rows a table has.
    Count(Name),
    /// The rows of a table that have this key.
    Select {
        table: Name,
        key: u64,
    },
    /// DBCC CHECKDB.
    Check {
        workers: u8,
    },
}
