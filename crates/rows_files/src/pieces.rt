// Files said as lists of pieces.
use crate::files::base;
use crate::objects::{Iam, heap, heap_page, iam_page, marks, pfs, slots, two_intervals, two_spans};
use crate::trees::{Node, clustered, data_row, index_page, leaf, put_in};
use std::alloc::{AllocError, Global};

/// A new file, before anything is put into it.
#[derive(Clone, Copy)]
pub enum New {
    /// A small file of so many pages, at most 88.
    Small(u8),
    /// So many bytes of zeros.
    Zeros(u32),
    /// A small file of two intervals.
    TwoIntervals,
    /// A file of the standard geometry with two PFS pages.
    TwoSpans,
}

/// What is put into a file. Pages come by their numbers; a later piece overwrites an earlier one.
pub enum Piece {
    /// A heap in the catalog: its id, its name of one letter, and its first IAM page.
    Heap(u8, u8, u16),
    /// A clustered table: id, name, first IAM page, and root.
    Clustered(u8, u8, u16, u16),
    /// An IAM page without slots and marks.
    Chain(u16, Iam),
    /// Pages in the slots of an IAM page, from slot 0 on.
    Slots(u16, &'static [u16]),
    /// Pages in the slots of an IAM page, from slot 0 on, each with this PFS byte.
    Owned(u16, &'static [u8], u8),
    /// The first eight marks of an IAM page.
    Marks(u16, u8),
    /// An empty heap page of an object.
    HeapPage(u16, u8),
    /// A leaf of object 1: its number, the pages before and behind it, and a row of 11 bytes for each key.
    Leaf(u16, u16, u16, &'static [u8]),
    /// An index page of object 1: its number, its level, the pages before and behind it, and its rows, of a key
    /// and a child.
    Index(u16, u8, u16, u16, &'static [(u8, u16)]),
    /// Data rows behind those of a page, of a key and a length.
    Rows(u16, &'static [(u8, u16)]),
    /// A key of a row of a page, from its first byte on.
    Key(u16, u16, u64),
    /// The PFS byte of a page.
    Pfs(u8, u8),
    /// Bytes of a page, from a place on.
    Bytes(u16, u16, &'static [u8]),
}

/// The one page of the chain of object 1.
pub const ONLY: Iam = Iam {
    object: 1,
    prev: 0,
    next: 0,
    interval: 0,
    sequence: 0,
};

// A page of the tree of object 1, of this level and between these pages.
fn node(level: u8, prev: u16, next: u16) -> Node {
    Node {
        object: 1,
        level,
        prev,
        next,
    }
}

fn add_rows(file: &mut Vec<u8>, p: u16, rows: &[(u8, u16)]) {
    for (key, length) in rows {
        data_row(file, p, *key, *length);
    }
}

fn own(file: &mut Vec<u8>, iam: u16, pages: &[u8], byte: u8) {
    let mut at = 104u16;
    for p in pages {
        put_in(file, iam, at, &[*p, 0, 0, 0]);
        pfs(file, *p, byte);
        at = at.saturating_add(4);
    }
}

fn put_piece(file: &mut Vec<u8>, piece: &Piece) {
    match piece {
        Piece::Heap(id, name, iam) => heap(file, *id, *name, *iam),
        Piece::Clustered(id, name, iam, root) => clustered(file, *id, *name, *iam, *root),
        Piece::Chain(p, iam) => iam_page(file, *p, iam),
        Piece::Slots(p, pages) => slots(file, *p, pages),
        Piece::Owned(iam, pages, byte) => own(file, *iam, pages, *byte),
        Piece::Marks(p, bits) => marks(file, *p, 0, &[*bits]),
        Piece::HeapPage(p, object) => heap_page(file, *p, *object),
        Piece::Leaf(p, prev, next, keys) => leaf(file, *p, &node(0, *prev, *next), keys),
        Piece::Index(p, level, prev, next, rows) => {
            index_page(file, *p, &node(*level, *prev, *next), rows)
        }
        Piece::Rows(p, rows) => add_rows(file, *p, rows),
        Piece::Key(p, at, key) => put_in(file, *p, *at, &u64::to_le_bytes(*key)),
        Piece::Pfs(p, byte) => pfs(file, *p, *byte),
        Piece::Bytes(p, at, bytes) => put_in(file, *p, *at, bytes),
    }
}

/// Puts these pieces into a file, one after another.
pub fn put_pieces(file: &mut Vec<u8>, pieces: &[Piece]) {
    for piece in pieces {
        put_piece(file, piece);
    }
}

fn new_file(alloc: Global, new: New) -> Result<Vec<u8>, AllocError> {
    match new {
        New::Small(pages) => base(alloc, pages),
        New::Zeros(bytes) => vec![in alloc; 0u8; bytes as usize],
        New::TwoIntervals => two_intervals(alloc),
        New::TwoSpans => two_spans(alloc),
    }
}

/// The file of these pieces.
pub fn made(alloc: Global, new: New, parts: &[&[Piece]]) -> Result<Vec<u8>, AllocError> {
    let mut file = new_file(alloc, new)?;
    for pieces in parts {
        put_pieces(&mut file, pieces);
    }
    Ok(file)
}
