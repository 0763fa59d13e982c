// The changes from one state of a page to another.
ghost use Rattle.std.specs.Prelude.{◌≡◌, ◌++◌, ◌<◌, ◌≤◌, IfOk, OnOk};
ghost use Rattle.spec_plan.specs.Changes as spec;
ghost use Rattle.heap_page.specs.Spans.{changes_of_byte};

use crate::span::differing_span;
use pg_base::{MAPS_START, NoMemory, PAGE_SIZE, Page, PageNo};
use spec_log::{Cell, Values};
use spec_plan::Planned;
use spec_rows::SLOT_LIMIT;
use std::alloc::Global;

/// The net changes of page p: rows, slots, header, each from the first to the last byte that differs.
pub fn page_changes(
    alloc: Global,
    p: PageNo,
    old: &Page,
    new: &Page,
    slots: u16,
) -> Result<Vec<Planned>, NoMemory>
    requires { slots ≤ SLOT_LIMIT }
    ensures { IfOk result (λ changes. changes.items ≡ spec.page_changes p.0 old.now.bytes new.now.bytes slots) }
{
    with_page_changes(alloc, Vec::with_capacity(alloc, 3)?, p, old, new, slots)
}

/// Adds the net changes of page p: rows, slots, header, each from the first to the last byte that differs.
pub fn add_page_changes(
    alloc: Global,
    changes: &mut Vec<Planned>,
    p: PageNo,
    old: &Page,
    new: &Page,
    slots: u16,
) -> Result<(), NoMemory>
    requires { slots ≤ SLOT_LIMIT }
    ensures { OnOk result (changes.new.items ≡ changes.old.items ++ spec.page_changes p.0 old.now.bytes new.now.bytes slots) }
{
    let slots_from = PAGE_SIZE - 2 * slots as usize;
    add_part_change(alloc, changes, p, old, new, MAPS_START, slots_from)?;
    add_part_change(alloc, changes, p, old, new, slots_from, PAGE_SIZE)?;
    add_part_change(alloc, changes, p, old, new, 0, MAPS_START)
}

/// Changes, and behind them the net changes of page p.
pub fn with_page_changes(
    alloc: Global,
    mut changes: Vec<Planned>,
    p: PageNo,
    old: &Page,
    new: &Page,
    slots: u16,
) -> Result<Vec<Planned>, NoMemory>
    requires { slots ≤ SLOT_LIMIT }
    ensures { IfOk result (λ all. all.items ≡ changes.items ++ spec.page_changes p.0 old.now.bytes new.now.bytes slots) }
{
    add_page_changes(alloc, &mut changes, p, old, new, slots)?;
    Ok(changes)
}

/// Adds the change of one part of page p, from the first to the last byte that differs, where any does.
pub fn add_part_change(
    alloc: Global,
    changes: &mut Vec<Planned>,
    p: PageNo,
    old: &Page,
    new: &Page,
    lo: usize,
    hi: usize,
) -> Result<(), NoMemory>
    requires order { lo ≤ hi }
    requires end { hi ≤ PAGE_SIZE }
    ensures { OnOk result (changes.new.items ≡ changes.old.items ++ spec.change_between p.0 old.now.bytes new.now.bytes lo hi) }
{
    if let Some(span) = differing_span(old, new, lo, hi) {
        let change = bytes_change(alloc, p, old, new, span.from, span.to)?;
        changes.push(change)?;
    }
    Ok(())
}

/// The change of page p from one byte to before another.
pub fn bytes_change(
    alloc: Global,
    p: PageNo,
    old: &Page,
    new: &Page,
    from: usize,
    to: usize,
) -> Result<Planned, NoMemory>
    requires order { from ≤ to }
    requires end { to ≤ PAGE_SIZE }
    ensures { IfOk result (λ change. change ≡ spec.bytes_change p.0 old.now.bytes new.now.bytes from to) }
{
    Ok(Planned {
        cell: Cell::Bytes {
            page: p,
            off: from as u32,
        },
        before: Values::copied(alloc, &old.bytes[from..to])?,
        after: Values::copied(alloc, &new.bytes[from..to])?,
    })
}

/// The change of one byte, as that of a page in its PFS page, where it changes; with room for the
/// changes of a page behind it.
pub fn byte_change(
    alloc: Global,
    page: PageNo,
    at: u32,
    before: u8,
    after: u8,
) -> Result<Vec<Planned>, NoMemory>
    ensures { IfOk result (λ changes. changes.items ≡ changes_of_byte page.0 at before after) }
{
    let mut changes = Vec::with_capacity(alloc, 4)?;
    if after != before {
        changes.push(Planned {
            cell: Cell::Bytes { page, off: at },
            before: Values::copied(alloc, &[before])?,
            after: Values::copied(alloc, &[after])?,
        })?;
    }
    Ok(changes)
}
