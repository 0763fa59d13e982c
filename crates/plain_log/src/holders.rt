//! Who holds a resource, and what a Start may take. The items stand in the log's order, the oldest first.
ghost use Rattle.std.specs.Prelude.{◌≡◌, ◌↔◌, IsTrue, reverse};
ghost use Rattle.std.specs.List.{list_any};
ghost use Rattle.spec_log.specs.Items.{is_same as same_resource};
ghost use Rattle.spec_log.specs.Log.{takes_it, IsFreeFor, has_taken as log_has_taken, holds as log_holds, greatest_of as log_greatest_of};
ghost use Rattle.spec_log.specs.Rules.{MayStart, AreFreeFor};

use crate::scan::is_unfinished;
use spec_file::Resource;
use spec_log::{Record, Values, tran_of_item};

/// Both are the same resource.
fn is_same(r: Resource, s: Resource) -> bool
    ensures { result ≡ same_resource r s }
{
    r == s
}

/// The resource stands among these.
fn contains(takes: &[Resource], r: Resource) -> bool
    ensures { result ≡ list_any (same_resource r) takes.now }
{
    for s in takes {
        if is_same(r, *s) {
            return true;
        }
    }
    false
}

/// The item is a Start of the transaction that takes the resource.
fn item_takes(t: u64, r: Resource, item: &Record) -> bool
    ensures { result ≡ takes_it t r item.now }
{
    match item {
        Record::Start { tran, takes, .. } => tran.0 == t && contains(takes.as_slice(), r),
        _ => false,
    }
}

/// A Start of the transaction took the resource.
fn has_taken(items: &[Record], t: u64, r: Resource) -> bool
    ensures { result ≡ log_has_taken (reverse items.now) t r }
{
    for item in items {
        if item_takes(t, r, item) {
            return true;
        }
    }
    false
}

/// The transaction holds the resource.
pub fn holds(items: &[Record], t: u64, r: Resource) -> bool
    ensures { result ≡ log_holds (reverse items.now) t r }
{
    is_unfinished(items, t) && has_taken(items, t, r)
}

/// Nobody but t holds the resource.
pub fn is_free_for(items: &[Record], t: u64, r: Resource) -> bool
    ensures { IsTrue result ↔ IsFreeFor (reverse items.now) t r }
{
    for item in items {
        let holder = tran_of_item(item);
        if holder != t && holds(items, holder, r) {
            return false;
        }
    }
    true
}

/// Nobody but t holds one of the resources.
pub fn are_free_for(items: &[Record], t: u64, takes: &[Resource]) -> bool
    ensures { IsTrue result ↔ AreFreeFor (reverse items.now) t takes.now }
{
    for r in takes {
        if !is_free_for(items, t, *r) {
            return false;
        }
    }
    true
}

/// The greatest transaction of the log, 0 where it has none.
fn greatest_of(items: &[Record]) -> u64
    ensures { result ≡ log_greatest_of (reverse items.now) }
{
    let mut greatest = 0;
    for item in items {
        greatest = tran_of_item(item).max(greatest);
    }
    greatest
}

/// A Start of the transaction may take these resources: the transaction is unfinished, or the next new one,
/// or none that takes nothing.
pub fn may_start(items: &[Record], t: u64, takes: &Values<Resource>) -> bool
    ensures { IsTrue result ↔ MayStart (reverse items.now) t takes.now }
{
    if t == 0 {
        return takes.count() == 0;
    }
    is_unfinished(items, t) || t - 1 == greatest_of(items)
}
