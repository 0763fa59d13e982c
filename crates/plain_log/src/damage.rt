//! The damaged page of a file beside its log.
ghost use Rattle.std.specs.Prelude.{◌≡◌, ◌+◌, ◌<◌, ◌^◌, Some, reverse, length, slice_range, bytes_eq, option_map, IfOk};
ghost use Rattle.spec_file.specs.Image.{page};
ghost use Rattle.spec_log.specs.Cells.{read_cell, map_bit};
ghost use Rattle.spec_log.specs.Log.{item_at};
ghost use Rattle.spec_log.specs.Images.{shows_before, shows, page_of_cell as cell_page, page_of_change as change_page, page_of_item as item_page, damaged_page as log_damaged_page};

use crate::PlainImage;
use crate::images::{item_with, take_item_back};
use crate::scan::is_unfinished;
use spec_file::{Lsn, NoMemory, PageNo};
use spec_log::{Cell, Record, tran_of_item};
use std::alloc::Global;

/// So many bytes of a page from an offset, as far as there are.
fn part_of(bytes: &[u8], off: usize, size: usize) -> &[u8]
    requires { off + size < 2 ^ 64 }
    ensures { result.now ≡ slice_range bytes.now off (off + size) }
{
    let from = off.min(bytes.len());
    let to = (off + size).min(bytes.len());
    &bytes[from..to]
}

/// The bytes of page p, none where there is no such page.
fn page_of(image: &PlainImage, p: usize) -> &[u8]
    ensures { result.now ≡ page image.now p }
{
    if p < image.count() {
        image.page(p)
    } else {
        &[]
    }
}

/// Bit n of a map page, 0 past its end.
fn bit_of(bytes: &[u8], n: u32) -> u8
    ensures { result ≡ map_bit bytes.now n }
{
    let at = 96 + n as usize / 8;
    if at < bytes.len() {
        (bytes[at] >> (n % 8)) & 1
    } else {
        0
    }
}

/// These bytes stand in the cell.
fn holds_bytes(image: &PlainImage, cell: Cell, bytes: &[u8]) -> bool
    ensures { result ≡ bytes_eq (read_cell image.now cell (length bytes.now)) bytes.now }
{
    match cell {
        Cell::Bytes { page, off } => {
            part_of(page_of(image, page.0 as usize), off as usize, bytes.len()) == bytes
        }
        Cell::Bit { page, n } => [bit_of(page_of(image, page.0 as usize), n)].as_slice() == bytes,
    }
}

/// The cell of a Change holds what it had found.
fn holds_found(image: &PlainImage, item: &Record) -> bool
    ensures { result ≡ shows_before (Some item.now) image.now }
{
    match item {
        Record::Change { cell, before, .. } => holds_bytes(image, *cell, before.as_slice()),
        _ => true,
    }
}

/// The cell of the Change with this LSN holds what it had found.
fn holds_undone(image: &PlainImage, older: &[Record], change: Lsn) -> bool
    ensures { result ≡ shows_before (item_at (reverse older.now) change.0) image.now }
{
    match item_with(older, change) {
        Some(item) => holds_found(image, item),
        None => true,
    }
}

/// The cell of an item holds what the item had written.
pub fn holds_written(image: &PlainImage, older: &[Record], item: &Record) -> bool
    ensures { result ≡ shows (reverse older.now) item.now image.now }
{
    match item {
        Record::Change { cell, after, .. } => holds_bytes(image, *cell, after.as_slice()),
        Record::Undo { change, .. } => holds_undone(image, older, *change),
        _ => true,
    }
}

/// The page of a cell.
fn page_of_cell(cell: Cell) -> PageNo
    ensures { result.0 ≡ cell_page cell }
{
    match cell {
        Cell::Bytes { page, .. } => page,
        Cell::Bit { page, .. } => page,
    }
}

/// The page of a Change, 0 for any other item.
fn page_of_change(item: &Record) -> PageNo
    ensures { result.0 ≡ change_page (Some item.now) }
{
    match item {
        Record::Change { cell, .. } => page_of_cell(*cell),
        _ => PageNo(0),
    }
}

/// The page of the Change with this LSN.
fn page_of_undone(older: &[Record], change: Lsn) -> PageNo
    ensures { result.0 ≡ change_page (item_at (reverse older.now) change.0) }
{
    match item_with(older, change) {
        Some(item) => page_of_change(item),
        None => PageNo(0),
    }
}

/// The page that an item writes, 0 where it writes none.
fn page_of_item(older: &[Record], item: &Record) -> PageNo
    ensures { result.0 ≡ item_page (reverse older.now) item.now }
{
    match item {
        Record::Change { cell, .. } => page_of_cell(*cell),
        Record::Undo { change, .. } => page_of_undone(older, *change),
        _ => PageNo(0),
    }
}

/// The page of the first cell that taking back meets and that doesn't hold what its item had written, none
/// where there is none.
pub fn damaged_page(
    alloc: Global,
    opened: &[Record],
    b: PlainImage,
) -> Result<Option<PageNo>, NoMemory>
    ensures { IfOk result (λ damage. option_map (λ p. p.0) damage ≡ log_damaged_page (reverse opened.now) b) }
{
    let mut image = b;
    let mut i = opened.len();
    while i > 0 {
        i -= 1;
        let item = &opened[i];
        if !is_unfinished(opened, tran_of_item(item)) {
            continue;
        }
        if !holds_written(&image, &opened[..i], item) {
            return Ok(Some(page_of_item(&opened[..i], item)));
        }
        take_item_back(alloc, &opened[..i], item, &mut image)?;
    }
    Ok(None)
}
