// The page test in a check: its first fault is the one error of a page, which then isn't seen.
use crate::trees::{CLEAN, EMPTY_HEAP, ONE, ONE_PAGE, SMALL, TABLE, TWO};
use rows_files::pieces::Piece;
use rows_files::pieces::Piece::{Bytes, Leaf, Pfs, Rows};
use rows_files::rows::{Row, expect_rows};
use std::test::Fail;

const UNSEEN: &str = "Msg 2593: object 1, rows 0, pages 0\n";

const SEEN: &str = "Msg 2593: object 1, rows 2, pages 1\n";

const UNSEEN_ROOT: &str = "Msg 8928: object 1, page 10, other 0, slot 0, value 1\n";

// Rows of 12 bytes at 96 and of 20 at 108 of page 10. What follows in the second is the header of a row of 11 bytes at
// 112.
const TWO_ROWS: &[Piece] = &[
    Pfs(10, 0x61),
    Rows(10, &[(1, 12), (0, 20)]),
    Bytes(10, 111, &[2, 0x10, 11]),
];

static HEADERS: [Row; 14] = [
    Row {
        name: "another page's number",
        new: SMALL,
        parts: &[EMPTY_HEAP, TWO_ROWS, &[Bytes(10, 4, &[11])]],
        errors: &["Msg 8909: object 1, page 10, other 0, slot 0, value 11\n"],
        lines: &[UNSEEN, ONE],
    },
    Row {
        name: "the type of an index page",
        new: SMALL,
        parts: &[EMPTY_HEAP, TWO_ROWS, &[Bytes(10, 1, &[2])]],
        errors: &["Msg 8938: object 1, page 10, other 0, slot 0, value 2\n"],
        lines: &[UNSEEN, ONE],
    },
    Row {
        name: "the type of an IAM page",
        new: SMALL,
        parts: &[EMPTY_HEAP, TWO_ROWS, &[Bytes(10, 1, &[10])]],
        errors: &["Msg 8938: object 1, page 10, other 0, slot 0, value 10\n"],
        lines: &[UNSEEN, ONE],
    },
    Row {
        name: "another object",
        new: SMALL,
        parts: &[EMPTY_HEAP, TWO_ROWS, &[Bytes(10, 8, &[2])]],
        errors: &["Msg 2534: object 1, page 10, other 2, slot 0, value 0\n"],
        lines: &[UNSEEN, ONE],
    },
    Row {
        name: "another version",
        new: SMALL,
        parts: &[EMPTY_HEAP, TWO_ROWS, &[Bytes(10, 0, &[2])]],
        errors: &["Msg 8939: object 1, page 10, other 0, slot 0, value 1\n"],
        lines: &[UNSEEN, ONE],
    },
    Row {
        name: "a level above 0",
        new: SMALL,
        parts: &[EMPTY_HEAP, TWO_ROWS, &[Bytes(10, 2, &[1])]],
        errors: &["Msg 8939: object 1, page 10, other 0, slot 0, value 2\n"],
        lines: &[UNSEEN, ONE],
    },
    Row {
        name: "a page before it",
        new: SMALL,
        parts: &[EMPTY_HEAP, TWO_ROWS, &[Bytes(10, 12, &[11])]],
        errors: &["Msg 8939: object 1, page 10, other 0, slot 0, value 4\n"],
        lines: &[UNSEEN, ONE],
    },
    Row {
        name: "a page behind it",
        new: SMALL,
        parts: &[EMPTY_HEAP, TWO_ROWS, &[Bytes(10, 16, &[11])]],
        errors: &["Msg 8939: object 1, page 10, other 0, slot 0, value 4\n"],
        lines: &[UNSEEN, ONE],
    },
    Row {
        name: "4,049 slots",
        new: SMALL,
        parts: &[EMPTY_HEAP, TWO_ROWS, &[Bytes(10, 20, &[0xd1, 0x0f])]],
        errors: &["Msg 8939: object 1, page 10, other 0, slot 0, value 5\n"],
        lines: &[UNSEEN, ONE],
    },
    Row {
        name: "the rows end at 95",
        new: SMALL,
        parts: &[EMPTY_HEAP, TWO_ROWS, &[Bytes(10, 24, &[95, 0])]],
        errors: &["Msg 8939: object 1, page 10, other 0, slot 0, value 5\n"],
        lines: &[UNSEEN, ONE],
    },
    Row {
        name: "they end at 8,189, where the slots begin at 8,188",
        new: SMALL,
        parts: &[EMPTY_HEAP, TWO_ROWS, &[Bytes(10, 24, &[0xfd, 0x1f])]],
        errors: &["Msg 8939: object 1, page 10, other 0, slot 0, value 5\n"],
        lines: &[UNSEEN, ONE],
    },
    Row {
        name: "a ghost",
        new: SMALL,
        parts: &[EMPTY_HEAP, TWO_ROWS, &[Bytes(10, 26, &[1])]],
        errors: &["Msg 8939: object 1, page 10, other 0, slot 0, value 6\n"],
        lines: &[UNSEEN, ONE],
    },
    // The free count is 8,096 - 32 - 4 = 8,060, which is 0x1f7c.
    Row {
        name: "a free count one too low",
        new: SMALL,
        parts: &[EMPTY_HEAP, TWO_ROWS, &[Bytes(10, 22, &[0x7b])]],
        errors: &["Msg 8939: object 1, page 10, other 0, slot 0, value 7\n"],
        lines: &[UNSEEN, ONE],
    },
    Row {
        name: "a free count one too high",
        new: SMALL,
        parts: &[EMPTY_HEAP, TWO_ROWS, &[Bytes(10, 22, &[0x7d])]],
        errors: &["Msg 8939: object 1, page 10, other 0, slot 0, value 7\n"],
        lines: &[UNSEEN, ONE],
    },
];

// The entry of slot 0 stands at 8,190, that of slot 1 at 8,188; the rows end at 128.
static ROWS: [Row; 12] = [
    Row {
        name: "slot 0 before the rows",
        new: SMALL,
        parts: &[EMPTY_HEAP, TWO_ROWS, &[Bytes(10, 8190, &[95, 0])]],
        errors: &["Msg 8941: object 1, page 10, other 0, slot 0, value 95\n"],
        lines: &[UNSEEN, ONE],
    },
    Row {
        name: "slot 1 at the end of the rows",
        new: SMALL,
        parts: &[EMPTY_HEAP, TWO_ROWS, &[Bytes(10, 8188, &[128, 0])]],
        errors: &["Msg 8941: object 1, page 10, other 0, slot 1, value 128\n"],
        lines: &[UNSEEN, ONE],
    },
    Row {
        name: "slot 1 behind the page",
        new: SMALL,
        parts: &[EMPTY_HEAP, TWO_ROWS, &[Bytes(10, 8188, &[0xff, 0xff])]],
        errors: &["Msg 8941: object 1, page 10, other 0, slot 1, value 65535\n"],
        lines: &[UNSEEN, ONE],
    },
    Row {
        name: "an index row",
        new: SMALL,
        parts: &[EMPTY_HEAP, TWO_ROWS, &[Bytes(10, 108, &[6])]],
        errors: &["Msg 8941: object 1, page 10, other 0, slot 1, value 108\n"],
        lines: &[UNSEEN, ONE],
    },
    Row {
        name: "a row of 10 bytes",
        new: SMALL,
        parts: &[EMPTY_HEAP, TWO_ROWS, &[Bytes(10, 109, &[10])]],
        errors: &["Msg 8941: object 1, page 10, other 0, slot 1, value 108\n"],
        lines: &[UNSEEN, ONE],
    },
    Row {
        name: "a row of 1,025 bytes",
        new: SMALL,
        parts: &[EMPTY_HEAP, TWO_ROWS, &[Bytes(10, 109, &[1, 4])]],
        errors: &["Msg 8941: object 1, page 10, other 0, slot 1, value 108\n"],
        lines: &[UNSEEN, ONE],
    },
    Row {
        name: "the rows end inside the second's header",
        new: SMALL,
        parts: &[EMPTY_HEAP, TWO_ROWS, &[Bytes(10, 24, &[110])]],
        errors: &["Msg 8941: object 1, page 10, other 0, slot 1, value 108\n"],
        lines: &[UNSEEN, ONE],
    },
    Row {
        name: "they end right behind that header",
        new: SMALL,
        parts: &[EMPTY_HEAP, TWO_ROWS, &[Bytes(10, 24, &[111])]],
        errors: &["Msg 8943: object 1, page 10, other 0, slot 1, value 128\n"],
        lines: &[UNSEEN, ONE],
    },
    Row {
        name: "they end before the last byte of the row",
        new: SMALL,
        parts: &[EMPTY_HEAP, TWO_ROWS, &[Bytes(10, 24, &[127])]],
        errors: &["Msg 8943: object 1, page 10, other 0, slot 1, value 128\n"],
        lines: &[UNSEEN, ONE],
    },
    Row {
        name: "the first row goes behind the rows",
        new: SMALL,
        parts: &[EMPTY_HEAP, TWO_ROWS, &[Bytes(10, 97, &[33])]],
        errors: &["Msg 8943: object 1, page 10, other 0, slot 0, value 129\n"],
        lines: &[UNSEEN, ONE],
    },
    Row {
        name: "the first row goes one byte into the second",
        new: SMALL,
        parts: &[EMPTY_HEAP, TWO_ROWS, &[Bytes(10, 97, &[13])]],
        errors: &["Msg 8942: object 1, page 10, other 0, slot 1, value 108\n"],
        lines: &[UNSEEN, ONE],
    },
    Row {
        name: "two slots of one row",
        new: SMALL,
        parts: &[EMPTY_HEAP, TWO_ROWS, &[Bytes(10, 8190, &[108, 0])]],
        errors: &["Msg 8942: object 1, page 10, other 0, slot 1, value 108\n"],
        lines: &[UNSEEN, ONE],
    },
];

static TWO_FAULTS: [Row; 12] = [
    Row {
        name: "the number before the version",
        new: SMALL,
        parts: &[
            EMPTY_HEAP,
            TWO_ROWS,
            &[Bytes(10, 0, &[2, 3]), Bytes(10, 4, &[9])],
        ],
        errors: &["Msg 8909: object 1, page 10, other 0, slot 0, value 9\n"],
        lines: &[UNSEEN, ONE],
    },
    Row {
        name: "the type before the object",
        new: SMALL,
        parts: &[
            EMPTY_HEAP,
            TWO_ROWS,
            &[Bytes(10, 0, &[2, 3]), Bytes(10, 8, &[2])],
        ],
        errors: &["Msg 8938: object 1, page 10, other 0, slot 0, value 3\n"],
        lines: &[UNSEEN, ONE],
    },
    Row {
        name: "the object before the version",
        new: SMALL,
        parts: &[
            EMPTY_HEAP,
            TWO_ROWS,
            &[Bytes(10, 0, &[2]), Bytes(10, 8, &[2])],
        ],
        errors: &["Msg 2534: object 1, page 10, other 2, slot 0, value 0\n"],
        lines: &[UNSEEN, ONE],
    },
    Row {
        name: "the version before the level",
        new: SMALL,
        parts: &[EMPTY_HEAP, TWO_ROWS, &[Bytes(10, 0, &[2, 1, 1])]],
        errors: &["Msg 8939: object 1, page 10, other 0, slot 0, value 1\n"],
        lines: &[UNSEEN, ONE],
    },
    Row {
        name: "the level before the links",
        new: SMALL,
        parts: &[
            EMPTY_HEAP,
            TWO_ROWS,
            &[Bytes(10, 2, &[1]), Bytes(10, 12, &[11])],
        ],
        errors: &["Msg 8939: object 1, page 10, other 0, slot 0, value 2\n"],
        lines: &[UNSEEN, ONE],
    },
    Row {
        name: "the links before the counts",
        new: SMALL,
        parts: &[
            EMPTY_HEAP,
            TWO_ROWS,
            &[Bytes(10, 16, &[11]), Bytes(10, 24, &[95])],
        ],
        errors: &["Msg 8939: object 1, page 10, other 0, slot 0, value 4\n"],
        lines: &[UNSEEN, ONE],
    },
    Row {
        name: "the counts before the ghosts",
        new: SMALL,
        parts: &[EMPTY_HEAP, TWO_ROWS, &[Bytes(10, 24, &[95, 0, 1])]],
        errors: &["Msg 8939: object 1, page 10, other 0, slot 0, value 5\n"],
        lines: &[UNSEEN, ONE],
    },
    Row {
        name: "the ghosts before the slots",
        new: SMALL,
        parts: &[
            EMPTY_HEAP,
            TWO_ROWS,
            &[Bytes(10, 26, &[1]), Bytes(10, 8190, &[95])],
        ],
        errors: &["Msg 8939: object 1, page 10, other 0, slot 0, value 6\n"],
        lines: &[UNSEEN, ONE],
    },
    Row {
        name: "the slots before the free count",
        new: SMALL,
        parts: &[
            EMPTY_HEAP,
            TWO_ROWS,
            &[Bytes(10, 22, &[0]), Bytes(10, 8188, &[95])],
        ],
        errors: &["Msg 8941: object 1, page 10, other 0, slot 1, value 95\n"],
        lines: &[UNSEEN, ONE],
    },
    Row {
        name: "slot 0 ends behind the rows, before slot 1 begins no row",
        new: SMALL,
        parts: &[
            EMPTY_HEAP,
            TWO_ROWS,
            &[Bytes(10, 97, &[33]), Bytes(10, 8188, &[95])],
        ],
        errors: &["Msg 8943: object 1, page 10, other 0, slot 0, value 129\n"],
        lines: &[UNSEEN, ONE],
    },
    Row {
        name: "slot 1 ends behind the rows, before slot 0 goes into it",
        new: SMALL,
        parts: &[
            EMPTY_HEAP,
            TWO_ROWS,
            &[Bytes(10, 97, &[13]), Bytes(10, 109, &[21])],
        ],
        errors: &["Msg 8943: object 1, page 10, other 0, slot 1, value 129\n"],
        lines: &[UNSEEN, ONE],
    },
    Row {
        name: "rows that meet before the free count",
        new: SMALL,
        parts: &[
            EMPTY_HEAP,
            TWO_ROWS,
            &[Bytes(10, 97, &[13]), Bytes(10, 22, &[0])],
        ],
        errors: &["Msg 8942: object 1, page 10, other 0, slot 1, value 108\n"],
        lines: &[UNSEEN, ONE],
    },
];

// The rows at 96 and 108, and that inside the second at 112.
static MEETINGS: [Row; 3] = [
    Row {
        name: "slots that fall",
        new: SMALL,
        parts: &[EMPTY_HEAP, TWO_ROWS, &[Bytes(10, 8188, &[96, 0, 108, 0])]],
        errors: &[],
        lines: &[SEEN, CLEAN],
    },
    Row {
        name: "a row inside another, in slots that fall",
        new: SMALL,
        parts: &[EMPTY_HEAP, TWO_ROWS, &[Bytes(10, 8188, &[108, 0, 112, 0])]],
        errors: &["Msg 8942: object 1, page 10, other 0, slot 0, value 112\n"],
        lines: &[UNSEEN, ONE],
    },
    Row {
        name: "slots 0 to 3 at 112, 108, 96 and 96, of which slot 3 is the first to meet the one before it",
        new: SMALL,
        parts: &[
            EMPTY_HEAP,
            TWO_ROWS,
            &[
                Bytes(10, 20, &[4]),
                Bytes(10, 8184, &[96, 0, 96, 0, 108, 0, 112, 0]),
            ],
        ],
        errors: &["Msg 8942: object 1, page 10, other 0, slot 3, value 96\n"],
        lines: &[UNSEEN, ONE],
    },
];

static NOT_ASKED: [Row; 4] = [
    Row {
        name: "byte 3",
        new: SMALL,
        parts: &[EMPTY_HEAP, TWO_ROWS, &[Bytes(10, 3, &[7])]],
        errors: &[],
        lines: &[SEEN, CLEAN],
    },
    Row {
        name: "the bytes behind the header's fields",
        new: SMALL,
        parts: &[EMPTY_HEAP, TWO_ROWS, &[Bytes(10, 28, &[1, 2, 3])]],
        errors: &[],
        lines: &[SEEN, CLEAN],
    },
    Row {
        name: "the rows may end where the slots begin",
        new: SMALL,
        parts: &[EMPTY_HEAP, TWO_ROWS, &[Bytes(10, 24, &[0xfc, 0x1f])]],
        errors: &[],
        lines: &[SEEN, CLEAN],
    },
    Row {
        name: "the bytes before the slots",
        new: SMALL,
        parts: &[EMPTY_HEAP, TWO_ROWS, &[Bytes(10, 8184, &[9, 9, 9, 9])]],
        errors: &[],
        lines: &[SEEN, CLEAN],
    },
];

// A root that fails its test isn't seen, which is an error of the tree.
static TREE_PAGES: [Row; 7] = [
    Row {
        name: "the type of another page",
        new: SMALL,
        parts: &[
            TABLE,
            ONE_PAGE,
            &[Leaf(10, 0, 0, &[1])],
            &[Bytes(10, 1, &[3])],
        ],
        errors: &[
            UNSEEN_ROOT,
            "Msg 8938: object 1, page 10, other 0, slot 0, value 3\n",
        ],
        lines: &[UNSEEN, TWO],
    },
    Row {
        name: "a leaf of level 1",
        new: SMALL,
        parts: &[
            TABLE,
            ONE_PAGE,
            &[Leaf(10, 0, 0, &[1])],
            &[Bytes(10, 2, &[1])],
        ],
        errors: &[
            UNSEEN_ROOT,
            "Msg 8939: object 1, page 10, other 0, slot 0, value 2\n",
        ],
        lines: &[UNSEEN, TWO],
    },
    Row {
        name: "an index page of level 0",
        new: SMALL,
        parts: &[
            TABLE,
            ONE_PAGE,
            &[Leaf(10, 0, 0, &[1])],
            &[Bytes(10, 1, &[2, 0])],
        ],
        errors: &[
            UNSEEN_ROOT,
            "Msg 8939: object 1, page 10, other 0, slot 0, value 2\n",
        ],
        lines: &[UNSEEN, TWO],
    },
    Row {
        name: "an index page of level 16",
        new: SMALL,
        parts: &[
            TABLE,
            ONE_PAGE,
            &[Leaf(10, 0, 0, &[1])],
            &[Bytes(10, 1, &[2, 16])],
        ],
        errors: &[
            UNSEEN_ROOT,
            "Msg 8939: object 1, page 10, other 0, slot 0, value 2\n",
        ],
        lines: &[UNSEEN, TWO],
    },
    Row {
        name: "an index page without rows",
        new: SMALL,
        parts: &[
            TABLE,
            ONE_PAGE,
            &[Leaf(10, 0, 0, &[1])],
            &[Bytes(10, 1, &[2, 15]), Bytes(10, 20, &[0])],
        ],
        errors: &[
            UNSEEN_ROOT,
            "Msg 8939: object 1, page 10, other 0, slot 0, value 3\n",
        ],
        lines: &[UNSEEN, TWO],
    },
    Row {
        name: "a data row on an index page",
        new: SMALL,
        parts: &[
            TABLE,
            ONE_PAGE,
            &[Leaf(10, 0, 0, &[1])],
            &[Bytes(10, 1, &[2, 15])],
        ],
        errors: &[
            UNSEEN_ROOT,
            "Msg 8941: object 1, page 10, other 0, slot 0, value 96\n",
        ],
        lines: &[UNSEEN, TWO],
    },
    Row {
        name: "an index row on a leaf",
        new: SMALL,
        parts: &[
            TABLE,
            ONE_PAGE,
            &[Leaf(10, 0, 0, &[1])],
            &[Bytes(10, 96, &[6])],
        ],
        errors: &[
            UNSEEN_ROOT,
            "Msg 8941: object 1, page 10, other 0, slot 0, value 96\n",
        ],
        lines: &[UNSEEN, TWO],
    },
];

#[test]
fn each_fault_of_a_page(rt: HostRuntime) -> Result<(), Fail> {
    expect_rows(rt.alloc(), &HEADERS)?;
    expect_rows(rt.alloc(), &ROWS)?;
    expect_rows(rt.alloc(), &TWO_FAULTS)?;
    expect_rows(rt.alloc(), &MEETINGS)?;
    expect_rows(rt.alloc(), &NOT_ASKED)?;
    expect_rows(rt.alloc(), &TREE_PAGES)
}
