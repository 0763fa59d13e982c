// The bytes of a PFS page that differ, by runs inside an extent.
ghost use Rattle.std.specs.Prelude.{◌≡◌, ◌++◌, ◌+◌, ◌<◌, ◌≤◌, OnOk};
ghost use Rattle.net_changes.specs.Bytes.{differing_length, begins_at, runs_between};

use crate::pair::{Pair, differs};
use heap_page::bytes_change;
use pg_base::{MAPS_START, NoMemory, PAGE_SIZE, PageNo};
use spec_plan::Planned;
use std::alloc::Global;

/// The most pages of which one PFS page speaks.
pub(crate) const MOST_BYTES: u32 = 8088;

// How many bytes from one on differ one after another, at most so many.
fn run_length(pair: &Pair, at: usize, most: usize) -> usize
    requires at { at ≤ PAGE_SIZE }
    requires end { at + most ≤ PAGE_SIZE }
    ensures length { result ≡ differing_length pair.now.before.bytes pair.now.after.bytes most at }
    ensures within { result ≤ most }
{
    for n in 0..most {
        if !differs(pair, at + n) {
            return n;
        }
    }
    most
}

// A run begins at byte k of those of a PFS page.
fn begins_run(pair: &Pair, k: u32) -> bool
    requires { k < MOST_BYTES }
    ensures { result ≡ begins_at pair.now.before.bytes pair.now.after.bytes k }
{
    let at = MAPS_START + k as usize;
    if !differs(pair, at) {
        return false;
    }
    k % 8 == 0 || !differs(pair, at - 1)
}

// Adds the run that begins at byte k, if one does.
fn add_run(
    alloc: Global,
    page: PageNo,
    pair: &Pair,
    k: u32,
    changes: &mut Vec<Planned>,
) -> Result<(), NoMemory>
    requires { k < MOST_BYTES }
    ensures { OnOk result (changes.new.items ≡ changes.old.items ++ runs_between page.0 pair.now.before.bytes pair.now.after.bytes k 1) }
{
    if begins_run(pair, k) {
        let at = MAPS_START + k as usize;
        let length = run_length(pair, at, 8 - k as usize % 8);
        let change = bytes_change(alloc, page, &pair.before, &pair.after, at, at + length)?;
        changes.push(change)?;
    }
    Ok(())
}

/// Adds the changes of a PFS page that speaks of so many pages, rising.
pub(crate) fn add_runs(
    alloc: Global,
    page: PageNo,
    pair: &Pair,
    count: u32,
    changes: &mut Vec<Planned>,
) -> Result<(), NoMemory>
    requires { count ≤ MOST_BYTES }
    ensures { OnOk result (changes.new.items ≡ changes.old.items ++ runs_between page.0 pair.now.before.bytes pair.now.after.bytes 0 count) }
{
    for k in 0..count {
        add_run(alloc, page, pair, k, changes)?;
    }
    Ok(())
}
