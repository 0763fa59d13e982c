//! What a log says of a transaction. The items stand in the log's order, the oldest first.
ghost use Rattle.std.specs.Prelude.{◌≡◌, reverse};
ghost use Rattle.spec_log.specs.Log.{starts, commits, ends};
ghost use Rattle.spec_log.specs.Log.{has_started as log_has_started, has_committed as log_has_committed, has_ended as log_has_ended, is_unfinished as log_is_unfinished};

use spec_file::Tran;
use spec_log::Record;

fn item_starts(t: u64, item: &Record) -> bool
    ensures { result ≡ starts t item.now }
{
    match item {
        Record::Start { tran, .. } => tran.0 == t,
        _ => false,
    }
}

fn item_commits(t: u64, item: &Record) -> bool
    ensures { result ≡ commits t item.now }
{
    match item {
        Record::Commit { tran } => tran.0 == t,
        _ => false,
    }
}

fn item_ends(t: u64, item: &Record) -> bool
    ensures { result ≡ ends t item.now }
{
    match item {
        Record::Commit { tran } => tran.0 == t,
        Record::Abort { tran } => tran.0 == t,
        _ => false,
    }
}

/// The log has a Start of the transaction.
pub fn has_started(items: &[Record], t: u64) -> bool
    ensures { result ≡ log_has_started (reverse items.now) t }
{
    for item in items {
        if item_starts(t, item) {
            return true;
        }
    }
    false
}

/// The log has a Commit of the transaction.
pub fn has_committed(items: &[Record], t: u64) -> bool
    ensures { result ≡ log_has_committed (reverse items.now) t }
{
    for item in items {
        if item_commits(t, item) {
            return true;
        }
    }
    false
}

/// The log has a Commit or an Abort of the transaction.
pub fn has_ended(items: &[Record], t: u64) -> bool
    ensures { result ≡ log_has_ended (reverse items.now) t }
{
    for item in items {
        if item_ends(t, item) {
            return true;
        }
    }
    false
}

/// The transaction has started and hasn't ended.
pub fn is_unfinished(items: &[Record], t: u64) -> bool
    ensures { result ≡ log_is_unfinished (reverse items.now) t }
{
    t > 0 && (has_started(items, t) && !has_ended(items, t))
}
