ghost use Rattle.std.specs.Prelude.{◌≡◌};
ghost use Rattle.spec_log.specs.Items.{tran_of};

use crate::Values;
use spec_file::{Lsn, PageNo, Resource, Tran};

/// The part of a page that a change puts: some of its bytes, or one bit of a map page.
#[derive(Clone, Copy, Debug, PartialEq, Eq)]
pub enum Cell {
    /// The bytes of a page from offset `off`.
    Bytes { page: PageNo, off: u32 },
    /// Bit `n` of a GAM or SGAM page.
    Bit { page: PageNo, n: u32 },
}

/// One item of the log. Sessions and statements count from 1.
#[derive(Debug, Drop)]
pub enum Record {
    /// The record of a statement that isn't a check.
    Start {
        session: u16,
        /// Which statement of its session it is.
        index: u32,
        /// The transaction, 0 for none.
        tran: Tran,
        /// 0 where the statement is accepted, else the number of its refusal.
        number: u16,
        /// How many changes the statement makes.
        changes: u32,
        /// The bytes that these changes have in the log.
        size: u64,
        /// What the transaction didn't hold yet and holds from here on.
        takes: Values<Resource>,
    },
    /// A cell changes. A bit is one byte, 0 or 1.
    Change {
        tran: Tran,
        cell: Cell,
        before: Values<u8>,
        after: Values<u8>,
    },
    /// The change with this number is undone.
    Undo {
        tran: Tran,
        change: Lsn,
    },
    /// The transaction ends, and its changes stay.
    Commit {
        tran: Tran,
    },
    /// The transaction ends, with all its changes undone.
    Abort {
        tran: Tran,
    },
    /// The record of a check: what is committed before it is what the check sees.
    Snap {
        session: u16,
        index: u32,
    },
    /// The device failed in reading this page for this statement.
    Failed {
        session: u16,
        index: u32,
        page: PageNo,
    },
    /// The check ends, as `REPORTED`, `FAULTED`, `DAMAGED` or `SHORT`.
    CheckEnd {
        session: u16,
        index: u32,
        outcome: u8,
    },
}

/// The transaction of an item, 0 where it has none.
pub fn tran_of_item(item: &Record) -> u64
    ensures { result ≡ tran_of item.now }
{
    match item {
        Record::Start { tran, .. } => tran.0,
        Record::Change { tran, .. } => tran.0,
        Record::Undo { tran, .. } => tran.0,
        Record::Commit { tran } => tran.0,
        Record::Abort { tran } => tran.0,
        Record::Snap { .. } => 0,
        Record::Failed { .. } => 0,
        Record::CheckEnd { .. } => 0,
    }
}
