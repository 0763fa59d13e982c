// The bits of a map page that turn.
ghost use Rattle.std.specs.Prelude.{◌≡◌, ◌++◌, ◌-◌, ◌*◌, ◌<◌, ◌≤◌, min, OnOk};
ghost use Rattle.spec_file.specs.declared.sizes.TheConstants.{BIT_COUNT};
ghost use Rattle.spec_log.specs.Cells as cells;
ghost use Rattle.net_changes.specs.Bytes.{bits_between};

use crate::pair::{Pair, differs};
use pg_base::{MAPS_START, NoMemory, Page, PageNo};
use spec_log::{Cell, Values};
use spec_plan::Planned;
use std::alloc::Global;

/// Bit n of a map page.
pub(crate) fn map_bit(page: &Page, n: u32) -> u8
    requires { n < BIT_COUNT }
    ensures { result ≡ cells.map_bit page.now.bytes n }
{
    (page.bytes[MAPS_START + n as usize / 8] >> (n % 8)) & 1
}

// Adds the change of bit n of a map page, if it turns.
fn add_bit(
    alloc: Global,
    page: PageNo,
    pair: &Pair,
    n: u32,
    changes: &mut Vec<Planned>,
) -> Result<(), NoMemory>
    requires { n < BIT_COUNT }
    ensures { OnOk result (changes.new.items ≡ changes.old.items ++ bits_between page.0 pair.now.before.bytes pair.now.after.bytes n 1) }
{
    let before = map_bit(&pair.before, n);
    let after = map_bit(&pair.after, n);
    if before != after {
        changes.push(Planned {
            cell: Cell::Bit { page, n },
            before: Values::copied(alloc, &[before])?,
            after: Values::copied(alloc, &[after])?,
        })?;
    }
    Ok(())
}

// Adds the changes of the bits of one byte of a map page that has so many bits.
fn add_byte_bits(
    alloc: Global,
    page: PageNo,
    pair: &Pair,
    byte: u32,
    count: u32,
    changes: &mut Vec<Planned>,
) -> Result<(), NoMemory>
    requires byte { 8 * byte < count }
    requires count { count ≤ BIT_COUNT }
    ensures { OnOk result (changes.new.items ≡ changes.old.items ++ bits_between page.0 pair.now.before.bytes pair.now.after.bytes (8 * byte) (min 8 (count - 8 * byte))) }
{
    if !differs(pair, MAPS_START + byte as usize) {
        return Ok(());
    }
    let first = 8 * byte;
    let some = (count - first).min(8);
    for i in 0..some {
        add_bit(alloc, page, pair, first + i, changes)?;
    }
    Ok(())
}

/// Adds the changes of a map page that has so many bits, rising.
pub(crate) fn add_bits(
    alloc: Global,
    page: PageNo,
    pair: &Pair,
    count: u32,
    changes: &mut Vec<Planned>,
) -> Result<(), NoMemory>
    requires { count ≤ BIT_COUNT }
    ensures { OnOk result (changes.new.items ≡ changes.old.items ++ bits_between page.0 pair.now.before.bytes pair.now.after.bytes 0 count) }
{
    for byte in 0..count.div_ceil(8) {
        add_byte_bits(alloc, page, pair, byte, count, changes)?;
    }
    Ok(())
}
