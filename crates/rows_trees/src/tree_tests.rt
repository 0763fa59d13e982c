// A page and its parents: the rules of trees that speak of levels, keys and the page before.
use crate::trees::{
    CLEAN, FOUR, LOW_TREE, ONE, ONE_OF_MAPS, ONE_PAGE, SMALL, TABLE, TALL_TREE, THREE, THREE_PAGES,
    TWO, TWO_PAGES,
};
use rows_files::pieces::Piece::{Bytes, Chain, Clustered, Index, Leaf, Marks, Pfs};
use rows_files::pieces::{New, ONLY, Piece};
use rows_files::rows::{Row, expect_rows};
use std::test::Fail;

// All pages of the tall tree are seen.
const TALL: &str = "Msg 2593: object 1, rows 3, pages 6\n";

static SOUND: [Row; 5] = [
    Row {
        name: "a tree of three levels",
        new: SMALL,
        parts: &[TABLE, TALL_TREE],
        errors: &[],
        lines: &[TALL, CLEAN],
    },
    Row {
        name: "a tree of two levels",
        new: SMALL,
        parts: &[TABLE, THREE_PAGES, LOW_TREE],
        errors: &[],
        lines: &["Msg 2593: object 1, rows 2, pages 3\n", CLEAN],
    },
    Row {
        name: "a leaf without rows is a tree",
        new: SMALL,
        parts: &[TABLE, ONE_PAGE, &[Leaf(10, 0, 0, &[])]],
        errors: &[],
        lines: &["Msg 2593: object 1, rows 0, pages 1\n", CLEAN],
    },
    Row {
        name: "a tree with a leaf without rows, which has no keys to be asked",
        new: SMALL,
        parts: &[TABLE, THREE_PAGES, LOW_TREE, &[Leaf(12, 11, 0, &[])]],
        errors: &[],
        lines: &["Msg 2593: object 1, rows 1, pages 3\n", CLEAN],
    },
    Row {
        name: "the tree that eight rows make once the root has split",
        new: SMALL,
        parts: &[
            TABLE,
            THREE_PAGES,
            &[
                Index(10, 1, 0, 0, &[(0, 11), (5, 12)]),
                Leaf(11, 0, 12, &[1, 2, 3, 4]),
                Leaf(12, 11, 0, &[5, 6, 7, 8]),
            ],
        ],
        errors: &[],
        lines: &["Msg 2593: object 1, rows 8, pages 3\n", CLEAN],
    },
];

static CHILDREN: [Row; 2] = [
    Row {
        name: "a child named twice, and one that is not there",
        new: New::Small(32),
        parts: &[
            TABLE,
            TWO_PAGES,
            &[
                Index(10, 1, 0, 0, &[(0, 11), (50, 11), (90, 20)]),
                Leaf(11, 0, 0, &[1]),
            ],
        ],
        errors: &[
            "Msg 8933: object 1, page 11, other 10, slot 1, value 1\n",
            "Msg 8935: object 1, page 11, other 10, slot 1, value 0\n",
            "Msg 8937: object 1, page 11, other 10, slot 0, value 2\n",
            "Msg 8980: object 1, page 20, other 10, slot 2, value 0\n",
        ],
        lines: &["Msg 2593: object 1, rows 1, pages 2\n", FOUR],
    },
    // The row asks for level 0, key 50 and 11 before it; the catalog comes first among the parents.
    Row {
        name: "a root that names itself",
        new: SMALL,
        parts: &[
            TABLE,
            TWO_PAGES,
            &[
                Index(10, 1, 0, 0, &[(0, 11), (50, 10)]),
                Leaf(11, 0, 0, &[1]),
            ],
        ],
        errors: &[
            "Msg 8931: object 1, page 10, other 10, slot 1, value 1\n",
            "Msg 8933: object 1, page 10, other 10, slot 1, value 0\n",
            "Msg 8935: object 1, page 10, other 10, slot 1, value 0\n",
            "Msg 8937: object 1, page 10, other 0, slot 0, value 2\n",
        ],
        lines: &["Msg 2593: object 1, rows 1, pages 2\n", FOUR],
    },
];

static LEVELS: [Row; 2] = [
    Row {
        name: "a level too high below the root",
        new: SMALL,
        parts: &[TABLE, TALL_TREE, &[Bytes(12, 2, &[2])]],
        errors: &[
            "Msg 8931: object 1, page 12, other 10, slot 1, value 2\n",
            "Msg 8931: object 1, page 15, other 12, slot 0, value 0\n",
        ],
        lines: &[TALL, TWO],
    },
    Row {
        name: "a level too high at the root, of which the catalog asks nothing",
        new: SMALL,
        parts: &[TABLE, TALL_TREE, &[Bytes(10, 2, &[3])]],
        errors: &[
            "Msg 8931: object 1, page 11, other 10, slot 0, value 1\n",
            "Msg 8931: object 1, page 12, other 10, slot 1, value 1\n",
        ],
        lines: &[TALL, TWO],
    },
];

// Of an index page the key of slot 0 is at 97 and that of slot 1 at 110; of a leaf it is at 99.
static FIRST_KEYS: [Row; 5] = [
    Row {
        name: "a leaf begins below the key of its row",
        new: SMALL,
        parts: &[TABLE, TALL_TREE, &[Bytes(15, 99, &[99])]],
        errors: &["Msg 8933: object 1, page 15, other 12, slot 0, value 99\n"],
        lines: &[TALL, ONE],
    },
    Row {
        name: "a leaf begins above it",
        new: SMALL,
        parts: &[TABLE, TALL_TREE, &[Bytes(15, 99, &[255])]],
        errors: &[],
        lines: &[TALL, CLEAN],
    },
    Row {
        name: "an index page begins above the key of its row",
        new: SMALL,
        parts: &[TABLE, TALL_TREE, &[Bytes(12, 97, &[101])]],
        errors: &[
            "Msg 8933: object 1, page 12, other 10, slot 1, value 101\n",
            "Msg 8933: object 1, page 15, other 12, slot 0, value 100\n",
        ],
        lines: &[TALL, TWO],
    },
    Row {
        name: "an index page begins below it",
        new: SMALL,
        parts: &[TABLE, TALL_TREE, &[Bytes(12, 97, &[99])]],
        errors: &["Msg 8933: object 1, page 12, other 10, slot 1, value 99\n"],
        lines: &[TALL, ONE],
    },
    Row {
        name: "the root begins above 0",
        new: SMALL,
        parts: &[TABLE, TALL_TREE, &[Bytes(10, 97, &[1])]],
        errors: &[
            "Msg 8933: object 1, page 10, other 0, slot 0, value 1\n",
            "Msg 8933: object 1, page 11, other 10, slot 0, value 0\n",
        ],
        lines: &[TALL, TWO],
    },
];

static LAST_KEYS: [Row; 6] = [
    Row {
        name: "the last key of a leaf is that of the next row",
        new: SMALL,
        parts: &[TABLE, TALL_TREE, &[Bytes(13, 99, &[50])]],
        errors: &["Msg 8934: object 1, page 13, other 11, slot 0, value 50\n"],
        lines: &[TALL, ONE],
    },
    Row {
        name: "it is one less",
        new: SMALL,
        parts: &[TABLE, TALL_TREE, &[Bytes(13, 99, &[49])]],
        errors: &[],
        lines: &[TALL, CLEAN],
    },
    Row {
        name: "the limit of the last row of 11 is the first key of 12",
        new: SMALL,
        parts: &[TABLE, TALL_TREE, &[Bytes(14, 99, &[100])]],
        errors: &["Msg 8934: object 1, page 14, other 11, slot 1, value 100\n"],
        lines: &[TALL, ONE],
    },
    Row {
        name: "the last key is one less than that",
        new: SMALL,
        parts: &[TABLE, TALL_TREE, &[Bytes(14, 99, &[99])]],
        errors: &[],
        lines: &[TALL, CLEAN],
    },
    Row {
        name: "the last key of an index page is that of the next row",
        new: SMALL,
        parts: &[TABLE, TALL_TREE, &[Bytes(11, 110, &[100])]],
        errors: &[
            "Msg 8933: object 1, page 14, other 11, slot 1, value 60\n",
            "Msg 8934: object 1, page 11, other 10, slot 0, value 100\n",
        ],
        lines: &[TALL, TWO],
    },
    Row {
        name: "where 11 names no next page there is no limit",
        new: SMALL,
        parts: &[
            TABLE,
            TALL_TREE,
            &[Bytes(11, 16, &[0]), Bytes(14, 99, &[100])],
        ],
        errors: &["Msg 8978: object 1, page 12, other 11, slot 0, value 0\n"],
        lines: &[TALL, ONE],
    },
];

static PAGES_BEFORE: [Row; 5] = [
    Row {
        name: "leaf 15 names 13, and before it is the last child of the index page before",
        new: SMALL,
        parts: &[TABLE, TALL_TREE, &[Bytes(15, 12, &[13])]],
        errors: &[
            "Msg 8935: object 1, page 15, other 12, slot 0, value 13\n",
            "Msg 8936: object 1, page 14, other 15, slot 0, value 13\n",
            "Msg 8978: object 1, page 15, other 13, slot 0, value 0\n",
        ],
        lines: &[TALL, THREE],
    },
    Row {
        name: "a root has none before it",
        new: SMALL,
        parts: &[TABLE, TALL_TREE, &[Bytes(10, 12, &[13])]],
        errors: &[
            "Msg 8935: object 1, page 10, other 0, slot 0, value 13\n",
            "Msg 8978: object 1, page 10, other 13, slot 0, value 0\n",
        ],
        lines: &[TALL, TWO],
    },
    Row {
        name: "the first leaf has none before it",
        new: SMALL,
        parts: &[TABLE, TALL_TREE, &[Bytes(13, 12, &[15])]],
        errors: &[
            "Msg 8935: object 1, page 13, other 11, slot 0, value 15\n",
            "Msg 8978: object 1, page 13, other 15, slot 0, value 0\n",
        ],
        lines: &[TALL, TWO],
    },
    Row {
        name: "where 12 has no page before it, its first child shall have none",
        new: SMALL,
        parts: &[TABLE, TALL_TREE, &[Bytes(12, 12, &[0])]],
        errors: &[
            "Msg 8935: object 1, page 12, other 10, slot 1, value 0\n",
            "Msg 8935: object 1, page 15, other 12, slot 0, value 14\n",
            "Msg 8936: object 1, page 11, other 12, slot 0, value 0\n",
        ],
        lines: &[TALL, THREE],
    },
    Row {
        name: "where 12 names a leaf, nothing is asked of its first child",
        new: SMALL,
        parts: &[TABLE, TALL_TREE, &[Bytes(12, 12, &[13])]],
        errors: &[
            "Msg 8935: object 1, page 12, other 10, slot 1, value 13\n",
            "Msg 8936: object 1, page 11, other 12, slot 0, value 13\n",
            "Msg 8978: object 1, page 12, other 13, slot 0, value 0\n",
        ],
        lines: &[TALL, THREE],
    },
];

const NO_PARENT: &str = "Msg 8977: object 1, page 10, other 0, slot 0, value 0\n";

// Entries 0 and 127 of the catalog hold a clustered table without a chain and a root.
const FIRST_ENTRY: &[Piece] = &[Bytes(9, 96, &[1, 0, 0, 0, 2, 1, b't'])];

const LAST_ENTRY: &[Piece] = &[Bytes(9, 5176, &[1, 0, 0, 0, 2, 1, b't'])];

const NO_ROOT: &[&str] = &[
    "Msg 8928: object 1, page 0, other 0, slot 0, value 1\n",
    "Msg 8968: object 1, page 9, other 0, slot 0, value 0\n",
];

const NO_ROOT_LINES: &[&str] = &[
    "Msg 2593: object 1, rows 0, pages 0\n",
    "Msg 8989: 1 allocation errors, 1 consistency errors\n",
];

// The root's number is at 124 of page 9.
static ROOTS: [Row; 5] = [
    Row {
        name: "the catalog names a page behind the table",
        new: SMALL,
        parts: &[TABLE, TALL_TREE, &[Bytes(9, 124, &[20])]],
        errors: &[
            "Msg 8928: object 1, page 20, other 0, slot 0, value 1\n",
            NO_PARENT,
        ],
        lines: &[TALL, TWO],
    },
    Row {
        name: "the catalog names an IAM page",
        new: SMALL,
        parts: &[TABLE, TALL_TREE, &[Bytes(9, 124, &[8])]],
        errors: &[
            "Msg 8928: object 1, page 8, other 0, slot 0, value 1\n",
            NO_PARENT,
        ],
        lines: &[TALL, TWO],
    },
    Row {
        name: "the catalog names leaf 13, and so does 11",
        new: SMALL,
        parts: &[TABLE, TALL_TREE, &[Bytes(9, 124, &[13])]],
        errors: &[
            "Msg 8937: object 1, page 13, other 0, slot 0, value 2\n",
            NO_PARENT,
        ],
        lines: &[TALL, TWO],
    },
    Row {
        name: "a table without a chain in the first entry",
        new: SMALL,
        parts: &[FIRST_ENTRY],
        errors: NO_ROOT,
        lines: NO_ROOT_LINES,
    },
    Row {
        name: "a table without a chain in the last entry",
        new: SMALL,
        parts: &[LAST_ENTRY],
        errors: NO_ROOT,
        lines: NO_ROOT_LINES,
    },
];

// A tree of root 24 over leaves 25 and 26, on extent 3, which its table marks.
const ON_MARKED_EXTENT: &[Piece] = &[
    Clustered(1, b't', 8, 24),
    Chain(8, ONLY),
    Marks(8, 0b1000),
    Pfs(8, 0x70),
    Bytes(2, 96, &[0b0100]),
    Index(24, 1, 0, 0, &[(0, 25), (50, 26)]),
    Leaf(25, 0, 26, &[1]),
    Leaf(26, 25, 0, &[60]),
];

static MARKED: [Row; 3] = [
    Row {
        name: "a marked extent holds the pages of a tree",
        new: New::Small(32),
        parts: &[ON_MARKED_EXTENT, &[Bytes(1, 120, &[0x40, 0x40, 0x40])]],
        errors: &[],
        lines: &["Msg 2593: object 1, rows 2, pages 3\n", CLEAN],
    },
    Row {
        name: "the pages of a tree have fullness 0",
        new: New::Small(32),
        parts: &[ON_MARKED_EXTENT, &[Bytes(1, 120, &[0x40, 0x41, 0x40])]],
        errors: &["Msg 8914: object 1, page 25, other 0, slot 0, value 65\n"],
        lines: &["Msg 2593: object 1, rows 2, pages 3\n", ONE_OF_MAPS],
    },
    Row {
        name: "a page that is not allocated is not the table's, though 25 names it as next",
        new: New::Small(32),
        parts: &[ON_MARKED_EXTENT, &[Bytes(1, 120, &[0x40, 0x40, 0])]],
        errors: &["Msg 8976: object 1, page 26, other 24, slot 1, value 0\n"],
        lines: &["Msg 2593: object 1, rows 1, pages 2\n", ONE],
    },
];

#[test]
fn a_page_and_its_parents(rt: HostRuntime) -> Result<(), Fail> {
    expect_rows(rt.alloc(), &SOUND)?;
    expect_rows(rt.alloc(), &CHILDREN)?;
    expect_rows(rt.alloc(), &LEVELS)?;
    expect_rows(rt.alloc(), &FIRST_KEYS)?;
    expect_rows(rt.alloc(), &LAST_KEYS)?;
    expect_rows(rt.alloc(), &PAGES_BEFORE)
}

#[test]
fn the_root_and_marked_extents(rt: HostRuntime) -> Result<(), Fail> {
    expect_rows(rt.alloc(), &ROOTS)?;
    expect_rows(rt.alloc(), &MARKED)
}
