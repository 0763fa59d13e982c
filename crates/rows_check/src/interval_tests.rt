// The maps of a file with heaps that have no pages: the intervals of their chains, and PFS pages.
use rows_files::objects::Iam;
use rows_files::pieces::Piece::{Bytes, Chain, Heap, Marks, Pfs};
use rows_files::pieces::{New, ONLY, Piece};
use rows_files::rows::{Row, expect_rows};
use std::test::Fail;

const CLEAN: &str = "Msg 8989: 0 allocation errors, 0 consistency errors\n";

const ONE: &str = "Msg 8989: 1 allocation errors, 0 consistency errors\n";

const EMPTY_ONE: &str = "Msg 2593: object 1, rows 0, pages 0\n";

// The IAM page of the second interval, behind page 8.
const SECOND: Iam = Iam {
    object: 1,
    prev: 8,
    next: 0,
    interval: 1,
    sequence: 1,
};

// A heap whose chain has a page for each of the two intervals. Extent 70 isn't free.
const IN_BOTH: &[Piece] = &[
    Heap(1, b't', 8),
    Chain(8, Iam { next: 10, ..ONLY }),
    Chain(10, SECOND),
    Pfs(8, 0x70),
    Pfs(10, 0x70),
    Bytes(512, 96, &[0xba]),
];

static ROWS: [Row; 6] = [
    Row {
        name: "a new file of two intervals",
        new: New::TwoIntervals,
        parts: &[],
        errors: &[],
        lines: &[CLEAN],
    },
    Row {
        name: "an extent of both maps",
        new: New::TwoIntervals,
        parts: &[&[Bytes(513, 96, &[0b0100_0000])]],
        errors: &["Msg 8903: object 0, page 560, other 0, slot 0, value 0\n"],
        lines: &[ONE],
    },
    Row {
        name: "an extent of the second interval is owned",
        new: New::TwoIntervals,
        parts: &[IN_BOTH, &[Marks(10, 0b0100_0000)]],
        errors: &[],
        lines: &[EMPTY_ONE, CLEAN],
    },
    Row {
        name: "an extent of the second interval is lost",
        new: New::TwoIntervals,
        parts: &[IN_BOTH],
        errors: &["Msg 8905: object 0, page 560, other 0, slot 0, value 0\n"],
        lines: &[EMPTY_ONE, ONE],
    },
    Row {
        name: "a new file of two PFS pages",
        new: New::TwoSpans,
        parts: &[],
        errors: &[],
        lines: &[CLEAN],
    },
    Row {
        name: "a page that the second PFS page reserves",
        new: New::TwoSpans,
        parts: &[&[Bytes(8088, 98, &[0x40])]],
        errors: &["Msg 8948: object 0, page 8090, other 0, slot 0, value 64\n"],
        lines: &[ONE],
    },
];

#[test]
fn maps_of_two_intervals_and_of_two_pfs_pages(rt: HostRuntime) -> Result<(), Fail> {
    expect_rows(rt.alloc(), &ROWS)
}
