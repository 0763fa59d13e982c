// The header and the slots of a page.
ghost use Rattle.std.specs.Prelude.{◌≡◌, ◌<◌, ◌≤◌, flat_map, is_err};
ghost use Rattle.std.specs.List.{range_with_len};
ghost use Rattle.vol_dev.specs.Output.{Wrote};
ghost use Rattle.spec_script.specs.PageText as spec;

use crate::line::{Line, push_field, write_line};
use pg_base::{Header, Page, PageNo, read_header, u16_at};
use vol_dev::{DeviceFailed, Sink};

#[tactic(auto, unfolding(spec_script::specs::PageText::header_lines))]
fn header_text(p: PageNo, header: &Header) -> Line
    ensures { result.bytes ≡ spec.header_lines p.0 header.now }
{
    let mut line = Line::new();
    push_field(&mut line, "page ", u64::from(p.0));
    push_field(&mut line, "\ntype ", u64::from(header.page_type));
    push_field(&mut line, " level ", u64::from(header.level));
    push_field(&mut line, " object ", u64::from(header.object.0));
    push_field(&mut line, "\nprev ", u64::from(header.prev.0));
    push_field(&mut line, " next ", u64::from(header.next.0));
    push_field(&mut line, "\nslots ", u64::from(header.slots));
    push_field(&mut line, " free ", u64::from(header.free_count));
    push_field(&mut line, " freedata ", u64::from(header.free_from));
    push_field(&mut line, " ghosts ", u64::from(header.ghosts));
    line.push_str("\n");
    line
}

#[tactic(auto, unfolding(spec_script::specs::PageText::slot_line))]
fn slot_text(page: &Page, i: usize) -> Line
    requires { i < 4048 }
    ensures { result.bytes ≡ spec.slot_line page.now.bytes i }
{
    let mut line = Line::new();
    push_field(&mut line, "slot ", i as u64);
    let offset = u16_at(&page.bytes, 8190 - 2 * i);
    push_field(&mut line, " offset ", u64::from(offset));
    line.push_str("\n");
    line
}

fn write_slots<K: Sink>(page: &Page, count: usize, out: &mut K) -> Result<(), DeviceFailed>
    requires { count ≤ 4048 }
    ensures { Wrote K.Sink out.old out.new (flat_map (spec.slot_line page.now.bytes) (range_with_len 0 count)) (is_err result) }
{
    for i in 0..count {
        write_line(&slot_text(page, i), out)?;
    }
    Ok(())
}

/// Writes the header of page `p` and its slots, as far as a page can have slots. After a failure of the
/// sink a front of these bytes stands there.
pub fn write_page<K: Sink>(page: &Page, p: PageNo, out: &mut K) -> Result<(), DeviceFailed>
    ensures { Wrote K.Sink out.old out.new (spec.page_text p.0 page.now.bytes) (is_err result) }
{
    let header = read_header(page);
    write_line(&header_text(p, &header), out)?;
    write_slots(page, usize::from(header.slots).min(4048), out)
}
