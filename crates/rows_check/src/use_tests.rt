// The uses of pages and extents by objects.
use rows_files::objects::Iam;
use rows_files::pieces::Piece::{Bytes, Chain, Heap, HeapPage, Marks, Pfs, Slots};
use rows_files::pieces::{New, ONLY, Piece};
use rows_files::rows::{Row, expect_rows};
use std::test::Fail;

const CLEAN: &str = "Msg 8989: 0 allocation errors, 0 consistency errors\n";

const ONE: &str = "Msg 8989: 1 allocation errors, 0 consistency errors\n";

const ONE_OF_EACH: &str = "Msg 8989: 1 allocation errors, 1 consistency errors\n";

const EMPTY_ONE: &str = "Msg 2593: object 1, rows 0, pages 0\n";

const EMPTY_TWO: &str = "Msg 2593: object 2, rows 0, pages 0\n";

// A heap without pages, whose IAM page is page 8.
const HEAP: &[Piece] = &[Heap(1, b'a', 8), Chain(8, ONLY), Pfs(8, 0x70)];

// A second one, whose IAM page is page 10.
const SECOND: &[Piece] = &[
    Heap(2, b'b', 10),
    Chain(10, Iam { object: 2, ..ONLY }),
    Pfs(10, 0x70),
];

// Of extents 2 and 3 the first alone is free.
const EXTENT_3_TAKEN: &[Piece] = &[Bytes(2, 96, &[0b0100])];

static EXTENTS: [Row; 3] = [
    Row {
        name: "the last extent is lost",
        new: New::Small(32),
        parts: &[EXTENT_3_TAKEN],
        errors: &["Msg 8905: object 0, page 24, other 0, slot 0, value 0\n"],
        lines: &[ONE],
    },
    Row {
        name: "two heaps on one extent",
        new: New::Small(32),
        parts: &[
            HEAP,
            SECOND,
            &[Marks(8, 0b1000), Marks(10, 0b1000)],
            EXTENT_3_TAKEN,
        ],
        errors: &["Msg 8904: object 1, page 24, other 2, slot 0, value 2\n"],
        lines: &[EMPTY_ONE, EMPTY_TWO, ONE],
    },
    Row {
        name: "a marked extent without pages is clean",
        new: New::Small(32),
        parts: &[HEAP, &[Marks(8, 0b1000)], EXTENT_3_TAKEN],
        errors: &[],
        lines: &[EMPTY_ONE, CLEAN],
    },
];

static SLOTS: [Row; 5] = [
    Row {
        name: "one page in slots of two heaps",
        new: New::Small(16),
        parts: &[
            HEAP,
            SECOND,
            &[
                Slots(8, &[11]),
                Slots(10, &[11]),
                HeapPage(11, 1),
                Pfs(11, 0x60),
            ],
        ],
        errors: &[
            "Msg 2534: object 2, page 11, other 1, slot 0, value 0\n",
            "Msg 8910: object 1, page 11, other 2, slot 0, value 2\n",
        ],
        lines: &[
            "Msg 2593: object 1, rows 0, pages 1\n",
            EMPTY_TWO,
            ONE_OF_EACH,
        ],
    },
    Row {
        name: "an owned page that isn't ordinary",
        new: New::Small(16),
        parts: &[HEAP, &[Slots(8, &[9])]],
        errors: &["Msg 8928: object 1, page 9, other 0, slot 0, value 0\n"],
        lines: &[
            EMPTY_ONE,
            "Msg 8989: 0 allocation errors, 1 consistency errors\n",
        ],
    },
    // The use of a page of extent 0 makes it a mixed one, 4, and it is the system's, 1.
    Row {
        name: "an owned map",
        new: New::Small(16),
        parts: &[HEAP, &[Slots(8, &[2])]],
        errors: &[
            "Msg 8913: object 0, page 0, other 0, slot 0, value 5\n",
            "Msg 8928: object 1, page 2, other 0, slot 0, value 0\n",
        ],
        lines: &[EMPTY_ONE, ONE_OF_EACH],
    },
    // Page 8 has two uses, and its byte is right for the chain alone.
    Row {
        name: "an IAM page in a slot of its own",
        new: New::Small(16),
        parts: &[HEAP, &[Slots(8, &[8])]],
        errors: &[
            "Msg 8910: object 1, page 8, other 1, slot 0, value 2\n",
            "Msg 8938: object 1, page 8, other 0, slot 0, value 10\n",
            "Msg 8948: object 1, page 8, other 0, slot 0, value 112\n",
        ],
        lines: &[
            EMPTY_ONE,
            "Msg 8989: 2 allocation errors, 1 consistency errors\n",
        ],
    },
    // Page 10 says nothing of itself and its byte is 0, but the slot wants that of a page which it holds.
    Row {
        name: "a page of zeros in a slot",
        new: New::Small(16),
        parts: &[HEAP, &[Slots(8, &[10])]],
        errors: &[
            "Msg 8909: object 1, page 10, other 0, slot 0, value 0\n",
            "Msg 8948: object 1, page 10, other 0, slot 0, value 0\n",
        ],
        lines: &[EMPTY_ONE, ONE_OF_EACH],
    },
];

#[test]
fn uses_of_extents_and_pages(rt: HostRuntime) -> Result<(), Fail> {
    expect_rows(rt.alloc(), &EXTENTS)?;
    expect_rows(rt.alloc(), &SLOTS)
}
