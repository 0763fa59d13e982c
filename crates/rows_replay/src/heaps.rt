// Heaps of the files over which sessions run.
use rows_files::objects::Iam;
use rows_files::pieces::Piece::{Bytes, Chain, Heap, HeapPage, Marks, Owned, Pfs};
use rows_files::pieces::{ONLY, Piece};

/// Heap `t`, object 1, whose one page is page 10. It has no rows.
pub(crate) const EMPTY_HEAP: &[Piece] = &[
    Heap(1, b't', 8),
    Chain(8, ONLY),
    Pfs(8, 0x70),
    HeapPage(10, 1),
    Owned(8, &[10], 0x60),
];

// The IAM page of the second interval, behind page 8.
const SECOND: Iam = Iam {
    object: 1,
    prev: 8,
    next: 0,
    interval: 1,
    sequence: 1,
};

/// Heap `t` that owns extent 70, the seventh of the second interval: of its pages the first is in use, page 560. Its
/// byte is that of PFS page 528 for the 33rd page.
pub(crate) const IN_THE_SECOND_INTERVAL: &[Piece] = &[
    Heap(1, b't', 8),
    Chain(8, Iam { next: 10, ..ONLY }),
    Chain(10, SECOND),
    Pfs(8, 0x70),
    Pfs(10, 0x70),
    Bytes(512, 96, &[0xba]),
    Marks(10, 0b0100_0000),
    HeapPage(560, 1),
    Bytes(528, 128, &[0x40]),
];
