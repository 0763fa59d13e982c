// The widths of keys and children in rows, and which of their bytes is the lowest.
//
// A data row has its key at 3 to 10, an index row its key at 1 to 8 and its child at 9 to 12. The first row of a
// page begins at 96. The second begins at 109 on an index page, where a row has 13 bytes, and at 107 on a leaf, where
// it has 11. A page names the next at 16.
use crate::trees::{CLEAN, LOW_TREE, ONE, SMALL, TABLE, THREE_PAGES, TWO_PAGES};
use rows_files::pieces::Piece::{Bytes, Key, Leaf};
use rows_files::rows::{Row, expect_rows};
use std::test::Fail;

// 2^56.
const HIGH: u64 = 0x0100_0000_0000_0000;

// Its bytes are 1 to 8.
const EACH: u64 = 0x0807_0605_0403_0201;

const TWO_ROWS: &str = "Msg 2593: object 1, rows 2, pages 3\n";

// The keys of the two rows of root 10, those of leaf 11 and of leaf 12. Leaf 11 has keys below the second of the root, leaf
// 12 has that and greater ones.
static KEYS: [Row; 9] = [
    Row {
        name: "the highest byte alone",
        new: SMALL,
        parts: &[
            TABLE,
            THREE_PAGES,
            LOW_TREE,
            &[
                Key(10, 97, 0),
                Key(10, 110, HIGH),
                Key(11, 99, 1),
                Key(12, 99, HIGH),
            ],
        ],
        errors: &[],
        lines: &[TWO_ROWS, CLEAN],
    },
    Row {
        name: "one less on the leaf before",
        new: SMALL,
        parts: &[
            TABLE,
            THREE_PAGES,
            LOW_TREE,
            &[
                Key(10, 97, 0),
                Key(10, 110, HIGH),
                Key(11, 99, HIGH - 1),
                Key(12, 99, HIGH),
            ],
        ],
        errors: &[],
        lines: &[TWO_ROWS, CLEAN],
    },
    Row {
        name: "each byte",
        new: SMALL,
        parts: &[
            TABLE,
            THREE_PAGES,
            LOW_TREE,
            &[
                Key(10, 97, 0),
                Key(10, 110, EACH),
                Key(11, 99, 1),
                Key(12, 99, EACH),
            ],
        ],
        errors: &[],
        lines: &[TWO_ROWS, CLEAN],
    },
    Row {
        name: "the last number",
        new: SMALL,
        parts: &[
            TABLE,
            THREE_PAGES,
            LOW_TREE,
            &[
                Key(10, 97, 0),
                Key(10, 110, u64::MAX),
                Key(11, 99, u64::MAX - 1),
                Key(12, 99, u64::MAX),
            ],
        ],
        errors: &[],
        lines: &[TWO_ROWS, CLEAN],
    },
    Row {
        name: "the first key of a root is 0",
        new: SMALL,
        parts: &[
            TABLE,
            THREE_PAGES,
            LOW_TREE,
            &[
                Key(10, 97, HIGH),
                Key(10, 110, EACH),
                Key(11, 99, HIGH),
                Key(12, 99, EACH),
            ],
        ],
        errors: &["Msg 8933: object 1, page 10, other 0, slot 0, value 72057594037927936\n"],
        lines: &[TWO_ROWS, ONE],
    },
    Row {
        name: "a leaf begins one below 2^56",
        new: SMALL,
        parts: &[
            TABLE,
            THREE_PAGES,
            LOW_TREE,
            &[
                Key(10, 97, 0),
                Key(10, 110, HIGH),
                Key(11, 99, 1),
                Key(12, 99, HIGH - 1),
            ],
        ],
        errors: &["Msg 8933: object 1, page 12, other 10, slot 1, value 72057594037927935\n"],
        lines: &[TWO_ROWS, ONE],
    },
    Row {
        name: "a leaf begins one below each byte",
        new: SMALL,
        parts: &[
            TABLE,
            THREE_PAGES,
            LOW_TREE,
            &[
                Key(10, 97, 0),
                Key(10, 110, EACH),
                Key(11, 99, 1),
                Key(12, 99, EACH - 1),
            ],
        ],
        errors: &["Msg 8933: object 1, page 12, other 10, slot 1, value 578437695752307200\n"],
        lines: &[TWO_ROWS, ONE],
    },
    Row {
        name: "a leaf begins below the last number",
        new: SMALL,
        parts: &[
            TABLE,
            THREE_PAGES,
            LOW_TREE,
            &[
                Key(10, 97, 0),
                Key(10, 110, u64::MAX),
                Key(11, 99, 1),
                Key(12, 99, EACH),
            ],
        ],
        errors: &["Msg 8933: object 1, page 12, other 10, slot 1, value 578437695752307201\n"],
        lines: &[TWO_ROWS, ONE],
    },
    Row {
        name: "a leaf ends at the key of the next row",
        new: SMALL,
        parts: &[
            TABLE,
            THREE_PAGES,
            LOW_TREE,
            &[
                Key(10, 97, 0),
                Key(10, 110, HIGH),
                Key(11, 99, HIGH),
                Key(12, 99, HIGH),
            ],
        ],
        errors: &["Msg 8934: object 1, page 11, other 10, slot 0, value 72057594037927936\n"],
        lines: &[TWO_ROWS, ONE],
    },
];

const THREE_ROWS: &str = "Msg 2593: object 1, rows 3, pages 3\n";

// The two keys of leaf 12.
static RISING: [Row; 3] = [
    Row {
        name: "keys rise over 2^56",
        new: SMALL,
        parts: &[
            TABLE,
            THREE_PAGES,
            LOW_TREE,
            &[
                Leaf(12, 11, 0, &[60, 70]),
                Key(12, 99, HIGH - 1),
                Key(12, 110, HIGH),
            ],
        ],
        errors: &[],
        lines: &[THREE_ROWS, CLEAN],
    },
    Row {
        name: "keys fall over 2^56",
        new: SMALL,
        parts: &[
            TABLE,
            THREE_PAGES,
            LOW_TREE,
            &[
                Leaf(12, 11, 0, &[60, 70]),
                Key(12, 99, HIGH),
                Key(12, 110, HIGH - 1),
            ],
        ],
        errors: &["Msg 2511: object 1, page 12, other 0, slot 1, value 72057594037927935\n"],
        lines: &[THREE_ROWS, ONE],
    },
    Row {
        name: "the last number twice",
        new: SMALL,
        parts: &[
            TABLE,
            THREE_PAGES,
            LOW_TREE,
            &[
                Leaf(12, 11, 0, &[60, 70]),
                Key(12, 99, u64::MAX),
                Key(12, 110, u64::MAX),
            ],
        ],
        errors: &["Msg 2511: object 1, page 12, other 0, slot 1, value 18446744073709551615\n"],
        lines: &[THREE_ROWS, ONE],
    },
];

const ONE_ROW: &str = "Msg 2593: object 1, rows 1, pages 2\n";

// The child of the root's second row, a page that the table hasn't.
static CHILDREN: [Row; 5] = [
    Row {
        name: "2^24",
        new: SMALL,
        parts: &[
            TABLE,
            TWO_PAGES,
            LOW_TREE,
            &[Bytes(10, 118, &[0, 0, 0, 1]), Bytes(11, 16, &[0, 0, 0, 0])],
        ],
        errors: &["Msg 8980: object 1, page 16777216, other 10, slot 1, value 0\n"],
        lines: &[ONE_ROW, ONE],
    },
    Row {
        name: "2^24, and leaf 11 names it as next",
        new: SMALL,
        parts: &[
            TABLE,
            TWO_PAGES,
            LOW_TREE,
            &[Bytes(10, 118, &[0, 0, 0, 1]), Bytes(11, 16, &[0, 0, 0, 1])],
        ],
        errors: &["Msg 8976: object 1, page 16777216, other 10, slot 1, value 0\n"],
        lines: &[ONE_ROW, ONE],
    },
    Row {
        name: "2^16",
        new: SMALL,
        parts: &[
            TABLE,
            TWO_PAGES,
            LOW_TREE,
            &[Bytes(10, 118, &[0, 0, 1, 0]), Bytes(11, 16, &[0, 0, 0, 0])],
        ],
        errors: &["Msg 8980: object 1, page 65536, other 10, slot 1, value 0\n"],
        lines: &[ONE_ROW, ONE],
    },
    Row {
        name: "2^8",
        new: SMALL,
        parts: &[
            TABLE,
            TWO_PAGES,
            LOW_TREE,
            &[Bytes(10, 118, &[0, 1, 0, 0]), Bytes(11, 16, &[0, 0, 0, 0])],
        ],
        errors: &["Msg 8980: object 1, page 256, other 10, slot 1, value 0\n"],
        lines: &[ONE_ROW, ONE],
    },
    Row {
        name: "each byte",
        new: SMALL,
        parts: &[
            TABLE,
            TWO_PAGES,
            LOW_TREE,
            &[Bytes(10, 118, &[1, 2, 3, 4]), Bytes(11, 16, &[0, 0, 0, 0])],
        ],
        errors: &["Msg 8980: object 1, page 67305985, other 10, slot 1, value 0\n"],
        lines: &[ONE_ROW, ONE],
    },
];

#[test]
fn keys_of_eight_bytes_and_children_of_four(rt: HostRuntime) -> Result<(), Fail> {
    expect_rows(rt.alloc(), &KEYS)?;
    expect_rows(rt.alloc(), &RISING)?;
    expect_rows(rt.alloc(), &CHILDREN)
}
