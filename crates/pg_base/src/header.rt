ghost use Rattle.std.specs.Prelude.{◌≡◌, take, drop, slice_index};
ghost use Rattle.spec_file.specs.Image.{number_at};
ghost use Rattle.spec_file.specs.Header.{header_of, header_version, says};

use crate::numbers::{put_u16, put_u32, u16_at, u32_at};
use crate::{Header, ObjId, Page, PageNo};

/// What a page says of itself.
pub fn read_header(page: &Page) -> Header
    ensures { result ≡ header_of page.now.bytes }
{
    let bytes = &page.bytes;
    Header {
        page_type: bytes[1],
        level: bytes[2],
        page_id: PageNo(u32_at(bytes, 4)),
        object: ObjId(u32_at(bytes, 8)),
        prev: PageNo(u32_at(bytes, 12)),
        next: PageNo(u32_at(bytes, 16)),
        slots: u16_at(bytes, 20),
        free_count: u16_at(bytes, 22),
        free_from: u16_at(bytes, 24),
        ghosts: u16_at(bytes, 26),
    }
}

/// Whether a page says that it has this type, and this number.
pub fn is_page_of(page: &Page, page_type: u8, p: PageNo) -> bool
    ensures { result ≡ says page_type p.0 page.now.bytes }
{
    let header = read_header(page);
    header.page_type == page_type && header.page_id == p
}

/// Makes the page say this of itself, in header version 1 (this project's own). Byte 3, bytes 28 to 95
/// and all that stands behind the header stay.
pub fn write_header(page: &mut Page, header: &Header)
    ensures read { header_of page.new.bytes ≡ header.now }
    ensures version { header_version page.new.bytes ≡ 1 }
    ensures unused { slice_index page.new.bytes 3 ≡ slice_index page.old.bytes 3 }
    ensures behind { drop 28 page.new.bytes ≡ drop 28 page.old.bytes }
{
    page.bytes[0] = 1;
    page.bytes[1] = header.page_type;
    page.bytes[2] = header.level;
    write_numbers(page, header);
    write_counts(page, header);
}

// The numbers of the page, its object and its neighbours.
fn write_numbers(page: &mut Page, header: &Header)
    ensures page_id { number_at 4 4 page.new.bytes ≡ header.now.page_id.0 }
    ensures object { number_at 4 8 page.new.bytes ≡ header.now.object.0 }
    ensures prev { number_at 4 12 page.new.bytes ≡ header.now.prev.0 }
    ensures next { number_at 4 16 page.new.bytes ≡ header.now.next.0 }
    ensures before { take 4 page.new.bytes ≡ take 4 page.old.bytes }
    ensures behind { drop 20 page.new.bytes ≡ drop 20 page.old.bytes }
{
    put_u32(page, 4, header.page_id.0);
    put_u32(page, 8, header.object.0);
    put_u32(page, 12, header.prev.0);
    put_u32(page, 16, header.next.0);
}

// How many rows, free bytes and ghosts the page has.
fn write_counts(page: &mut Page, header: &Header)
    ensures slots { number_at 2 20 page.new.bytes ≡ header.now.slots }
    ensures free_count { number_at 2 22 page.new.bytes ≡ header.now.free_count }
    ensures free_from { number_at 2 24 page.new.bytes ≡ header.now.free_from }
    ensures ghosts { number_at 2 26 page.new.bytes ≡ header.now.ghosts }
    ensures before { take 20 page.new.bytes ≡ take 20 page.old.bytes }
    ensures behind { drop 28 page.new.bytes ≡ drop 28 page.old.bytes }
{
    put_u16(page, 20, header.slots);
    put_u16(page, 22, header.free_count);
    put_u16(page, 24, header.free_from);
    put_u16(page, 26, header.ghosts);
}
