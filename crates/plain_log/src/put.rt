//! Cells of an image.
ghost use Rattle.std.specs.Prelude.{slice_index, slice_set, ◌≡◌, ◌+◌, ◌/◌, ◌%◌, ◌<◌, ◌^◌, length, IfOk, OnOk, OnErr};
ghost use Rattle.spec_file.specs.Image.{page};
ghost use Rattle.spec_log.specs.Cells.{with_bytes, with_map_bit, put as image_with, byte_with};

use crate::PlainImage;
use spec_file::{Lsn, NoMemory};
use spec_log::{Cell, Record, Values, byte_with_bit};
use std::alloc::Global;

/// The page with these bytes put at an offset.
fn page_with_bytes(
    alloc: Global,
    old: &[u8],
    off: usize,
    bytes: &[u8],
) -> Result<Values<u8>, NoMemory>
    requires { off < 2 ^ 32 }
    ensures { IfOk result (λ page. page ≡ with_bytes old.now off bytes.now) }
{
    let mut page = Values::new(alloc);
    for i in 0..old.len() {
        page.push(new_byte(old, off, bytes, i))?;
    }
    Ok(page)
}

/// Byte i of that page.
fn new_byte(old: &[u8], off: usize, bytes: &[u8], i: usize) -> u8
    requires within { i < length old.now }
    requires small { off < 2 ^ 32 }
    ensures { result ≡ byte_with old.now off bytes.now i }
{
    if i >= off && i - off < bytes.len() {
        bytes[i - off]
    } else {
        old[i]
    }
}

/// The map page with bit n turned to v.
fn page_with_bit(alloc: Global, old: &[u8], n: u32, v: u8) -> Result<Values<u8>, NoMemory>
    ensures { IfOk result (λ page. page ≡ with_map_bit old.now n v) }
{
    let mut page = Vec::from_slice(alloc, old)?;
    let at = 96 + n as usize / 8;
    if at < page.len() {
        page[at] = byte_with_bit(page[at], n % 8, v);
    }
    Ok(Values::from_vec(page))
}

/// Puts bytes into a page at an offset.
fn put_bytes(
    alloc: Global,
    image: &mut PlainImage,
    p: usize,
    off: u32,
    bytes: &[u8],
) -> Result<(), NoMemory>
    ensures ok { OnOk result (image.new ≡ slice_set image.old p (with_bytes (page image.old p) off bytes.now)) }
    ensures err { OnErr result (image.new ≡ image.old) }
{
    if p >= image.count() {
        return Ok(());
    }
    let bytes = page_with_bytes(alloc, image.page(p), off as usize, bytes)?;
    image.set_page(p, bytes);
    Ok(())
}

/// Turns a bit of a map page to v.
fn put_bit(alloc: Global, image: &mut PlainImage, p: usize, n: u32, v: u8) -> Result<(), NoMemory>
    ensures ok { OnOk result (image.new ≡ slice_set image.old p (with_map_bit (page image.old p) n v)) }
    ensures err { OnErr result (image.new ≡ image.old) }
{
    if p >= image.count() {
        return Ok(());
    }
    let bytes = page_with_bit(alloc, image.page(p), n, v)?;
    image.set_page(p, bytes);
    Ok(())
}

/// The first byte, 0 where there is none.
fn first_byte(bytes: &[u8]) -> u8
    ensures { result ≡ slice_index bytes.now 0 }
{
    if bytes.is_empty() { 0 } else { bytes[0] }
}

/// Puts these bytes into a cell.
pub fn put(alloc: Global, image: &mut PlainImage, cell: Cell, bytes: &[u8]) -> Result<(), NoMemory>
    ensures ok { OnOk result (image.new ≡ image_with image.old cell bytes.now) }
    ensures err { OnErr result (image.new ≡ image.old) }
{
    match cell {
        Cell::Bytes { page, off } => put_bytes(alloc, image, page.0 as usize, off, bytes),
        Cell::Bit { page, n } => put_bit(alloc, image, page.0 as usize, n, first_byte(bytes)),
    }
}
