// The rows of a heap page that have a key.
ghost use Rattle.std.specs.Prelude.{◌≡◌, ◌++◌, ◌<◌, option_map, option_to_list, OnOk};
ghost use Rattle.spec_rows.specs.Rows.{row_of};
ghost use Rattle.spec_rows.specs.Slots.{slot_count, page_row};
ghost use Rattle.spec_plan.specs.Rows as spec;
ghost use Rattle.heap_page.specs.Pages.{IsHeapPage};

use pg_base::{NoMemory, Page, is_whole, read_header, u16_at};
use pg_row::{Row, read_row};
use spec_log::Values;
use std::alloc::Global;

// The bytes of row i.
fn row_at(page: &Page, i: u16) -> &[u8]
    requires heap { IsHeapPage page.now.bytes }
    requires i { i < slot_count page.now.bytes }
    ensures { result.now ≡ page_row page.now.bytes i }
{
    is_whole(page);
    let start = u16_at(&page.bytes, 8190 - 2 * i as usize) as usize;
    let size = u16_at(&page.bytes, start + 1) as usize;
    &page.bytes[start..start + size]
}

// The payload of a row, where it has this key.
fn payload_with(row: &[u8], key: u64) -> Option<&[u8]>
    ensures { option_map (λ payload. payload.now) result ≡ spec.payload_with key (row_of row.now) }
{
    match read_row(row) {
        Some(Row::Leaf { key: own, payload }) if own == key => Some(payload),
        _ => None,
    }
}

// Adds a copy of a row's payload, where it has this key.
fn add_payload(
    alloc: Global,
    row: &[u8],
    key: u64,
    into: &mut Vec<Values<u8>>,
) -> Result<(), NoMemory>
    ensures { OnOk result (into.new.items ≡ into.old.items ++ option_to_list (spec.payload_with key (row_of row.now))) }
{
    if let Some(payload) = payload_with(row, key) {
        into.push(Values::copied(alloc, payload)?)?;
    }
    Ok(())
}

/// Adds copies of the payloads of a heap page's rows that have this key, in the order of their slots.
pub fn add_payloads(
    alloc: Global,
    page: &Page,
    key: u64,
    into: &mut Vec<Values<u8>>,
) -> Result<(), NoMemory>
    requires { IsHeapPage page.now.bytes }
    ensures { OnOk result (into.new.items ≡ into.old.items ++ spec.payloads_of key page.now.bytes) }
{
    for i in 0..read_header(page).slots {
        add_payload(alloc, row_at(page, i), key, into)?;
    }
    Ok(())
}
