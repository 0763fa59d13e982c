//! The newest change of a transaction that isn't undone. The items stand in the log's order, the oldest
//! first.
ghost use Rattle.std.specs.Prelude.{◌↔◌, IsTrue, reverse};
ghost use Rattle.spec_log.specs.Rules.{IsLastLeft};
ghost use Rattle.plain_log.specs.Steps.{IsNewestLeft};

use spec_file::Lsn;
use spec_log::{Record, tran_of_item};

/// The newest change of the transaction that isn't undone, none where all are.
pub fn newest_left(items: &[Record], t: u64) -> Option<Lsn>
    ensures { IsNewestLeft (reverse items.now) t result }
{
    let mut i = items.len();
    let mut undone: usize = 0;
    while i > 0 {
        i -= 1;
        match &items[i] {
            Record::Change { tran, .. } if tran.0 == t => {
                if undone == 0 {
                    return Some(Lsn(i as u64 + 1));
                }
                undone -= 1;
            }
            Record::Undo { tran, .. } if tran.0 == t => undone += 1,
            _ => {}
        }
    }
    None
}

/// This is the newest change of the transaction that isn't undone.
pub fn is_last_left(items: &[Record], t: u64, lsn: Lsn) -> bool
    ensures { IsTrue result ↔ IsLastLeft (reverse items.now) t lsn.0 }
{
    newest_left(items, t) == Some(lsn)
}
