// A page and its neighbours: pages without parents, and where links and index rows lead.
use crate::trees::{FOUR_PAGES, LOW_TREE, ONE, SMALL, TABLE, THREE, THREE_PAGES, TWO, TWO_PAGES};
use rows_files::objects::Iam;
use rows_files::pieces::Piece::{
    Bytes, Chain, Clustered, Heap, HeapPage, Index, Leaf, Owned, Pfs, Rows,
};
use rows_files::pieces::{ONLY, Piece};
use rows_files::rows::{Row, expect_rows};
use std::test::Fail;

// Leaf 13 with key 70, which no index row names.
const ORPHAN: &[Piece] = &[Leaf(13, 0, 0, &[70])];

const NO_PARENT: &str = "Msg 8977: object 1, page 13, other 0, slot 0, value 0\n";

const FOUR_SEEN: &str = "Msg 2593: object 1, rows 3, pages 4\n";

// What a page names as prev is at 12, as next at 16.
static ORPHANS: [Row; 5] = [
    Row {
        name: "no index row names the leaf",
        new: SMALL,
        parts: &[TABLE, FOUR_PAGES, LOW_TREE, ORPHAN],
        errors: &[NO_PARENT],
        lines: &[FOUR_SEEN, ONE],
    },
    Row {
        name: "leaf 12 names it as next",
        new: SMALL,
        parts: &[
            TABLE,
            FOUR_PAGES,
            LOW_TREE,
            ORPHAN,
            &[Bytes(12, 16, &[13]), Bytes(13, 12, &[12])],
        ],
        errors: &[NO_PARENT],
        lines: &[FOUR_SEEN, ONE],
    },
    Row {
        name: "it names 12 as prev, and 12 names no next",
        new: SMALL,
        parts: &[TABLE, FOUR_PAGES, LOW_TREE, ORPHAN, &[Bytes(13, 12, &[12])]],
        errors: &["Msg 8979: object 1, page 13, other 12, slot 0, value 0\n"],
        lines: &[FOUR_SEEN, ONE],
    },
    Row {
        name: "it names a page behind the file as prev",
        new: SMALL,
        parts: &[TABLE, FOUR_PAGES, LOW_TREE, ORPHAN, &[Bytes(13, 12, &[99])]],
        errors: &["Msg 8979: object 1, page 13, other 99, slot 0, value 0\n"],
        lines: &[FOUR_SEEN, ONE],
    },
    Row {
        name: "it names 12 as next, which has 11 before it",
        new: SMALL,
        parts: &[TABLE, FOUR_PAGES, LOW_TREE, ORPHAN, &[Bytes(13, 16, &[12])]],
        errors: &[
            "Msg 8936: object 1, page 13, other 12, slot 0, value 11\n",
            NO_PARENT,
        ],
        lines: &[FOUR_SEEN, TWO],
    },
];

const THREE_SEEN: &str = "Msg 2593: object 1, rows 2, pages 3\n";

const TWO_SEEN: &str = "Msg 2593: object 1, rows 1, pages 2\n";

static LINKS: [Row; 5] = [
    Row {
        name: "the first leaf names no next",
        new: SMALL,
        parts: &[TABLE, THREE_PAGES, LOW_TREE, &[Bytes(11, 16, &[0])]],
        errors: &["Msg 8978: object 1, page 12, other 11, slot 0, value 0\n"],
        lines: &[THREE_SEEN, ONE],
    },
    Row {
        name: "the second names no prev",
        new: SMALL,
        parts: &[TABLE, THREE_PAGES, LOW_TREE, &[Bytes(12, 12, &[0])]],
        errors: &[
            "Msg 8935: object 1, page 12, other 10, slot 1, value 0\n",
            "Msg 8936: object 1, page 11, other 12, slot 0, value 0\n",
        ],
        lines: &[THREE_SEEN, TWO],
    },
    Row {
        name: "the next isn't the table's",
        new: SMALL,
        parts: &[TABLE, THREE_PAGES, LOW_TREE, &[Bytes(12, 16, &[14])]],
        errors: &["Msg 8981: object 1, page 12, other 14, slot 0, value 0\n"],
        lines: &[THREE_SEEN, ONE],
    },
    Row {
        name: "the next is its IAM page",
        new: SMALL,
        parts: &[TABLE, THREE_PAGES, LOW_TREE, &[Bytes(12, 16, &[8])]],
        errors: &["Msg 8981: object 1, page 12, other 8, slot 0, value 0\n"],
        lines: &[THREE_SEEN, ONE],
    },
    Row {
        name: "the next is behind the file",
        new: SMALL,
        parts: &[TABLE, THREE_PAGES, LOW_TREE, &[Bytes(12, 16, &[99])]],
        errors: &["Msg 8981: object 1, page 12, other 99, slot 0, value 0\n"],
        lines: &[THREE_SEEN, ONE],
    },
];

// An index row names leaf 12, so that the link to it isn't told.
static UNSEEN_CHILDREN: [Row; 5] = [
    Row {
        name: "leaf 12 isn't the table's",
        new: SMALL,
        parts: &[TABLE, TWO_PAGES, LOW_TREE],
        errors: &["Msg 8976: object 1, page 12, other 10, slot 1, value 0\n"],
        lines: &[TWO_SEEN, ONE],
    },
    Row {
        name: "leaf 11 names no next besides",
        new: SMALL,
        parts: &[TABLE, TWO_PAGES, LOW_TREE, &[Bytes(11, 16, &[0])]],
        errors: &["Msg 8980: object 1, page 12, other 10, slot 1, value 0\n"],
        lines: &[TWO_SEEN, ONE],
    },
    Row {
        name: "the row names a page behind the file, and the link 12",
        new: SMALL,
        parts: &[TABLE, TWO_PAGES, LOW_TREE, &[Bytes(10, 118, &[99])]],
        errors: &[
            "Msg 8980: object 1, page 99, other 10, slot 1, value 0\n",
            "Msg 8981: object 1, page 11, other 12, slot 0, value 0\n",
        ],
        lines: &[TWO_SEEN, TWO],
    },
    Row {
        name: "a leaf that fails its test is none of the tree's",
        new: SMALL,
        parts: &[TABLE, THREE_PAGES, LOW_TREE, &[Bytes(12, 8, &[2])]],
        errors: &[
            "Msg 2534: object 1, page 12, other 2, slot 0, value 0\n",
            "Msg 8976: object 1, page 12, other 10, slot 1, value 0\n",
        ],
        lines: &[TWO_SEEN, TWO],
    },
    // A page without a next page names page 0 as it; no rule makes an exception of that.
    Row {
        name: "an index row names page 0",
        new: SMALL,
        parts: &[
            TABLE,
            TWO_PAGES,
            &[
                Index(10, 1, 0, 0, &[(0, 11), (50, 0)]),
                Leaf(11, 0, 0, &[1]),
            ],
        ],
        errors: &["Msg 8976: object 1, page 0, other 10, slot 1, value 0\n"],
        lines: &[TWO_SEEN, ONE],
    },
];

// The tree of two levels of table 1, whose root's second row and whose first leaf name page 13. That is the one page of
// object 2, whose IAM page is page 14.
const INTO_ANOTHER: &[Piece] = &[
    Owned(8, &[10, 11], 0x60),
    Index(10, 1, 0, 0, &[(0, 11), (50, 13)]),
    Leaf(11, 0, 13, &[1]),
    Chain(14, Iam { object: 2, ..ONLY }),
    Pfs(14, 0x70),
];

const SECOND_TABLE: &[Piece] = &[
    Clustered(2, b'u', 14, 13),
    Owned(14, &[13], 0x60),
    Leaf(13, 0, 0, &[60]),
    Bytes(13, 8, &[2]),
];

const SECOND_HEAP: &[Piece] = &[
    Heap(2, b'u', 14),
    Owned(14, &[13], 0x61),
    HeapPage(13, 2),
    Rows(13, &[(60, 11)]),
];

const ROW_TO_ANOTHER: &str = "Msg 8925: object 1, page 13, other 10, slot 1, value 2\n";

const NEXT_OF_ANOTHER: &str = "Msg 8982: object 1, page 11, other 13, slot 0, value 2\n";

const SECOND_SEEN: &str = "Msg 2593: object 2, rows 1, pages 1\n";

static ANOTHER: [Row; 3] = [
    Row {
        name: "a tree leads into another",
        new: SMALL,
        parts: &[TABLE, INTO_ANOTHER, SECOND_TABLE],
        errors: &[ROW_TO_ANOTHER, NEXT_OF_ANOTHER],
        lines: &[TWO_SEEN, SECOND_SEEN, TWO],
    },
    Row {
        name: "two trees lead into each other",
        new: SMALL,
        parts: &[TABLE, INTO_ANOTHER, SECOND_TABLE, &[Bytes(13, 16, &[11])]],
        errors: &[
            ROW_TO_ANOTHER,
            NEXT_OF_ANOTHER,
            "Msg 8982: object 2, page 13, other 11, slot 0, value 1\n",
        ],
        lines: &[TWO_SEEN, SECOND_SEEN, THREE],
    },
    Row {
        name: "a tree leads into a heap",
        new: SMALL,
        parts: &[TABLE, INTO_ANOTHER, SECOND_HEAP],
        errors: &[ROW_TO_ANOTHER, NEXT_OF_ANOTHER],
        lines: &[TWO_SEEN, SECOND_SEEN, TWO],
    },
];

#[test]
fn where_links_and_index_rows_lead(rt: HostRuntime) -> Result<(), Fail> {
    expect_rows(rt.alloc(), &ORPHANS)?;
    expect_rows(rt.alloc(), &LINKS)?;
    expect_rows(rt.alloc(), &UNSEEN_CHILDREN)?;
    expect_rows(rt.alloc(), &ANOTHER)
}
