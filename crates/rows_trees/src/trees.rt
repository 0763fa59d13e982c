// Tables said as lists of pieces: a heap of one page, and trees of one, two and three levels.
use rows_files::pieces::Piece::{Chain, Clustered, Heap, HeapPage, Index, Leaf, Owned, Pfs};
use rows_files::pieces::{New, ONLY, Piece};

pub const SMALL: New = New::Small(16);

pub const CLEAN: &str = "Msg 8989: 0 allocation errors, 0 consistency errors\n";

pub const ONE: &str = "Msg 8989: 0 allocation errors, 1 consistency errors\n";

pub const TWO: &str = "Msg 8989: 0 allocation errors, 2 consistency errors\n";

pub const THREE: &str = "Msg 8989: 0 allocation errors, 3 consistency errors\n";

pub const FOUR: &str = "Msg 8989: 0 allocation errors, 4 consistency errors\n";

pub const ONE_OF_MAPS: &str = "Msg 8989: 1 allocation errors, 0 consistency errors\n";

/// Heap 1, whose one page is page 10. It has no rows.
pub const EMPTY_HEAP: &[Piece] = &[
    Heap(1, b't', 8),
    Chain(8, ONLY),
    Pfs(8, 0x70),
    Owned(8, &[10], 0x60),
    HeapPage(10, 1),
];

/// Clustered table 1, whose root is page 10. Its IAM page is page 8.
pub const TABLE: &[Piece] = &[Clustered(1, b't', 8, 10), Chain(8, ONLY), Pfs(8, 0x70)];

/// The table has so many of the pages from 10 on.
pub const ONE_PAGE: &[Piece] = &[Owned(8, &[10], 0x60)];

pub const TWO_PAGES: &[Piece] = &[Owned(8, &[10, 11], 0x60)];

pub const THREE_PAGES: &[Piece] = &[Owned(8, &[10, 11, 12], 0x60)];

pub const FOUR_PAGES: &[Piece] = &[Owned(8, &[10, 11, 12, 13], 0x60)];

/// The pages of a sound tree of two levels: root 10 over leaves 11 and 12, whose keys are 1 and 60.
pub const LOW_TREE: &[Piece] = &[
    Index(10, 1, 0, 0, &[(0, 11), (50, 12)]),
    Leaf(11, 0, 12, &[1]),
    Leaf(12, 11, 0, &[60]),
];

/// A sound tree of three levels: root 10 over 11 and 12, those over leaves 13 to 15, whose keys are 1, 60 and 100.
pub const TALL_TREE: &[Piece] = &[
    Owned(8, &[10, 11, 12, 13, 14, 15], 0x60),
    Index(10, 2, 0, 0, &[(0, 11), (100, 12)]),
    Index(11, 1, 0, 12, &[(0, 13), (50, 14)]),
    Index(12, 1, 11, 0, &[(100, 15)]),
    Leaf(13, 0, 14, &[1]),
    Leaf(14, 13, 15, &[60]),
    Leaf(15, 14, 0, &[100]),
];
