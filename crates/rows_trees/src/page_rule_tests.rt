// The rules of one page that an object owns: the order of its keys and its fullness.
use crate::trees::{CLEAN, EMPTY_HEAP, ONE, ONE_OF_MAPS, ONE_PAGE, SMALL, TABLE, TWO};
use rows_files::pieces::Piece;
use rows_files::pieces::Piece::{Bytes, Leaf, Pfs, Rows};
use rows_files::rows::{Row, expect_rows};
use std::test::Fail;

const THREE_ROWS: &str = "Msg 2593: object 1, rows 3, pages 1\n";

static KEYS: [Row; 5] = [
    Row {
        name: "keys that rise",
        new: SMALL,
        parts: &[TABLE, ONE_PAGE, &[Leaf(10, 0, 0, &[0, 4, 5])]],
        errors: &[],
        lines: &[THREE_ROWS, CLEAN],
    },
    Row {
        name: "a key twice",
        new: SMALL,
        parts: &[TABLE, ONE_PAGE, &[Leaf(10, 0, 0, &[4, 5, 5])]],
        errors: &["Msg 2511: object 1, page 10, other 0, slot 2, value 5\n"],
        lines: &[THREE_ROWS, ONE],
    },
    Row {
        name: "a key is asked against the one before it alone",
        new: SMALL,
        parts: &[TABLE, ONE_PAGE, &[Leaf(10, 0, 0, &[5, 3, 4])]],
        errors: &["Msg 2511: object 1, page 10, other 0, slot 1, value 3\n"],
        lines: &[THREE_ROWS, ONE],
    },
    Row {
        name: "keys that fall",
        new: SMALL,
        parts: &[TABLE, ONE_PAGE, &[Leaf(10, 0, 0, &[5, 4, 3])]],
        errors: &[
            "Msg 2511: object 1, page 10, other 0, slot 1, value 4\n",
            "Msg 2511: object 1, page 10, other 0, slot 2, value 3\n",
        ],
        lines: &[THREE_ROWS, TWO],
    },
    Row {
        name: "the keys of a heap need not rise",
        new: SMALL,
        parts: &[
            EMPTY_HEAP,
            &[Rows(10, &[(5, 11), (5, 11), (3, 11)]), Pfs(10, 0x61)],
        ],
        errors: &[],
        lines: &[THREE_ROWS, CLEAN],
    },
];

const NO_ROWS: &str = "Msg 2593: object 1, rows 0, pages 1\n";

const FOUR_ROWS: &str = "Msg 2593: object 1, rows 4, pages 1\n";

const SEVEN_ROWS: &str = "Msg 2593: object 1, rows 7, pages 1\n";

const EIGHT_ROWS: &str = "Msg 2593: object 1, rows 8, pages 1\n";

// Rows of 1,024 bytes.
const THREE_LONG: &[Piece] = &[Rows(10, &[(0, 1024), (1, 1024), (2, 1024)])];

const THREE_MORE: &[Piece] = &[Rows(10, &[(3, 1024), (4, 1024), (5, 1024)])];

const ONE_MORE: &[Piece] = &[Rows(10, &[(6, 1024)])];

// Six rows of 1,024 bytes and one of 318 use 6,476 bytes with their slots, which is 80 percent of 8,096. Three use 3,080
// bytes and a length with the last: 4,048 is half of 8,096. Seven use 7,184 and a length: 7,691 is 95 percent.
static FULLNESS: [Row; 11] = [
    Row {
        name: "80 percent",
        new: SMALL,
        parts: &[
            EMPTY_HEAP,
            THREE_LONG,
            THREE_MORE,
            &[Rows(10, &[(9, 318)]), Pfs(10, 0x62)],
        ],
        errors: &[],
        lines: &[SEVEN_ROWS, CLEAN],
    },
    Row {
        name: "one byte more",
        new: SMALL,
        parts: &[
            EMPTY_HEAP,
            THREE_LONG,
            THREE_MORE,
            &[Rows(10, &[(9, 319)]), Pfs(10, 0x63)],
        ],
        errors: &[],
        lines: &[SEVEN_ROWS, CLEAN],
    },
    Row {
        name: "a byte too high",
        new: SMALL,
        parts: &[
            EMPTY_HEAP,
            THREE_LONG,
            THREE_MORE,
            &[Rows(10, &[(9, 318)]), Pfs(10, 0x63)],
        ],
        errors: &["Msg 8914: object 1, page 10, other 0, slot 0, value 99\n"],
        lines: &[SEVEN_ROWS, ONE_OF_MAPS],
    },
    Row {
        name: "a byte too low",
        new: SMALL,
        parts: &[
            EMPTY_HEAP,
            THREE_LONG,
            THREE_MORE,
            &[Rows(10, &[(9, 319)]), Pfs(10, 0x62)],
        ],
        errors: &["Msg 8914: object 1, page 10, other 0, slot 0, value 98\n"],
        lines: &[SEVEN_ROWS, ONE_OF_MAPS],
    },
    Row {
        name: "50 percent",
        new: SMALL,
        parts: &[
            EMPTY_HEAP,
            THREE_LONG,
            &[Rows(10, &[(9, 968)]), Pfs(10, 0x61)],
        ],
        errors: &[],
        lines: &[FOUR_ROWS, CLEAN],
    },
    Row {
        name: "one byte more than half",
        new: SMALL,
        parts: &[
            EMPTY_HEAP,
            THREE_LONG,
            &[Rows(10, &[(9, 969)]), Pfs(10, 0x62)],
        ],
        errors: &[],
        lines: &[FOUR_ROWS, CLEAN],
    },
    Row {
        name: "95 percent",
        new: SMALL,
        parts: &[
            EMPTY_HEAP,
            THREE_LONG,
            THREE_MORE,
            ONE_MORE,
            &[Rows(10, &[(9, 507)]), Pfs(10, 0x63)],
        ],
        errors: &[],
        lines: &[EIGHT_ROWS, CLEAN],
    },
    Row {
        name: "one byte more than that",
        new: SMALL,
        parts: &[
            EMPTY_HEAP,
            THREE_LONG,
            THREE_MORE,
            ONE_MORE,
            &[Rows(10, &[(9, 508)]), Pfs(10, 0x64)],
        ],
        errors: &[],
        lines: &[EIGHT_ROWS, CLEAN],
    },
    Row {
        name: "a page without rows has fullness 0",
        new: SMALL,
        parts: &[EMPTY_HEAP],
        errors: &[],
        lines: &[NO_ROWS, CLEAN],
    },
    Row {
        name: "a page that fails its test has no fullness",
        new: SMALL,
        parts: &[EMPTY_HEAP, &[Pfs(10, 0x64), Bytes(10, 26, &[1])]],
        errors: &["Msg 8939: object 1, page 10, other 0, slot 0, value 6\n"],
        lines: &["Msg 2593: object 1, rows 0, pages 0\n", ONE],
    },
    Row {
        name: "a page of a tree has fullness 0",
        new: SMALL,
        parts: &[TABLE, ONE_PAGE, &[Leaf(10, 0, 0, &[1]), Pfs(10, 0x61)]],
        errors: &["Msg 8914: object 1, page 10, other 0, slot 0, value 97\n"],
        lines: &["Msg 2593: object 1, rows 1, pages 1\n", ONE_OF_MAPS],
    },
];

#[test]
fn the_rules_of_one_page(rt: HostRuntime) -> Result<(), Fail> {
    expect_rows(rt.alloc(), &KEYS)?;
    expect_rows(rt.alloc(), &FULLNESS)
}
