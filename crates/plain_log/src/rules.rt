//! The rules of a whole log. The items stand in the log's order, the oldest first.
ghost use Rattle.std.specs.Prelude.{◌≡◌, ◌≤◌, ◌↔◌, IsTrue, Some, None, reverse};
ghost use Rattle.spec_file.specs.declared.data.Lsn.{Lsn as LsnValue};
ghost use Rattle.spec_file.specs.Places as places;
ghost use Rattle.spec_log.specs.Rules as spec;

use crate::cover::is_covered;
use crate::holders::{are_free_for, may_start};
use crate::left::{is_last_left, newest_left};
use crate::scan::is_unfinished;
use spec_file::{Geometry, Lsn};
use spec_log::Record;

/// The item may stand after the older ones, in the log of a file of so many pages.
pub fn follows(g: Geometry, pages: u32, older: &[Record], item: &Record) -> bool
    requires { pages ≤ places.page_limit g }
    ensures { IsTrue result ↔ spec.Follows g pages (reverse older.now) item.now }
{
    match item {
        Record::Start { tran, takes, .. } => {
            may_start(older, tran.0, takes) && are_free_for(older, tran.0, takes.as_slice())
        }
        Record::Change {
            tran,
            cell,
            after,
            ..
        } => {
            let size = after.as_slice().len() as u64;
            is_unfinished(older, tran.0) && is_covered(g, pages, older, tran.0, *cell, size)
        }
        Record::Undo { tran, change } => {
            is_unfinished(older, tran.0) && is_last_left(older, tran.0, *change)
        }
        Record::Commit { tran } => is_unfinished(older, tran.0),
        Record::Abort { tran } => {
            is_unfinished(older, tran.0) && newest_left(older, tran.0).is_none()
        }
        Record::Snap { .. } | Record::Failed { .. } | Record::CheckEnd { .. } => true,
    }
}

/// The LSN of the first item that breaks a rule, none where the log keeps the rules: each item may stand
/// after those before it. The log is that of a file of so many pages.
pub fn first_broken(g: Geometry, pages: u32, items: &[Record]) -> Option<Lsn>
    requires { pages ≤ places.page_limit g }
    ensures kept { (result ≡ None) ↔ spec.KeepsRules g pages (reverse items.now) }
    ensures broken { (lsn : LsnValue) → (result ≡ Some lsn) ↔ spec.IsFirstBroken g pages (reverse items.now) lsn.0 }
{
    for i in 0..items.len() {
        if !follows(g, pages, &items[..i], &items[i]) {
            return Some(Lsn(i as u64 + 1));
        }
    }
    None
}
