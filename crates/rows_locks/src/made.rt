// A file with a heap, as pages in memory, and what another transaction holds of it.
use db_locks::LockTable;
use pg_base::{Page, Resource, Tran};
use rows_files::pieces::Piece::{Chain, Heap, HeapPage, Marks, Pfs, Rows, Slots};
use rows_files::pieces::{New, ONLY, Piece, made};
use std::alloc::Global;
use std::test::Fail;

/// The heap `t` with pages 10 and 11 in its slots, of two rows and one; extent 2 is marked, of which page 17 is
/// allocated, without rows.
pub const HEAP: &[Piece] = &[
    Heap(1, b't', 8),
    Chain(8, ONLY),
    Slots(8, &[10, 11]),
    Marks(8, 0b100),
    HeapPage(10, 1),
    HeapPage(11, 1),
    HeapPage(17, 1),
    Rows(10, &[(1, 11), (2, 11)]),
    Rows(11, &[(3, 11)]),
    Pfs(8, 0x70),
    Pfs(10, 0x61),
    Pfs(11, 0x61),
    Pfs(17, 0x40),
];

fn page_from(file: &[u8], p: usize) -> Page {
    let mut page = Page { bytes: [0; 8192] };
    let at = p.saturating_mul(8192);
    for (i, cell) in page.bytes.iter_mut().enumerate() {
        if let Some(byte) = file.get(at.saturating_add(i)) {
            *cell = *byte;
        }
    }
    page
}

/// The first pages of a file with these pieces, so many.
pub fn pages_in(
    alloc: Global,
    new: New,
    count: usize,
    parts: &[&[Piece]],
) -> Result<Vec<Page>, Fail> {
    let file = made(alloc, new, parts)?;
    let mut pages = Vec::new(alloc);
    for p in 0..count {
        pages.push(page_from(&file, p))?;
    }
    Ok(pages)
}

/// The pages of a small file of 24 pages with these pieces.
pub fn pages_of(alloc: Global, parts: &[&[Piece]]) -> Result<Vec<Page>, Fail> {
    pages_in(alloc, New::Small(24), 24, parts)
}

/// Transaction 2 holds these resources.
pub fn locks_on(alloc: Global, held: &[Resource]) -> Result<LockTable, Fail> {
    let mut locks = LockTable::begin(alloc);
    for r in held {
        locks.reserve(1)?;
        if locks.take(*r, Tran(2)).is_err() {
            return Err(Fail::from("held"));
        }
    }
    Ok(locks)
}
