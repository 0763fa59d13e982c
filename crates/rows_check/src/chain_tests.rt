// The chain of a heap's IAM pages: where it ends, and what each of its pages says wrong.
//
// In a new file of 16 pages with heap 1, whose one IAM page is page 8, the catalog names that page at 120 of page 9.
// An IAM page has its type at 1, its number at 4, its object at 8, the page before at 12, the next at 16, its
// interval at 96, its sequence at 100, slot i at 104 + 4 * i and the marks from 136 on. The PFS byte of page p
// is at 96 + p of page 1.
use rows_files::pieces::Piece::{Bytes, Chain, Heap, Pfs};
use rows_files::pieces::{New, ONLY, Piece};
use rows_files::rows::{Row, expect_rows};
use std::test::Fail;

const CLEAN: &str = "Msg 8989: 0 allocation errors, 0 consistency errors\n";

const ONE: &str = "Msg 8989: 1 allocation errors, 0 consistency errors\n";

const NO_PAGES: &str = "Msg 2593: object 1, rows 0, pages 0\n";

const SMALL: New = New::Small(16);

// A heap without pages. Page 8 may be none of its chain, so that it has no use, and its byte is to be 0.
const UNREACHED: &[Piece] = &[Heap(1, b't', 8), Chain(8, ONLY)];

// The same with page 8 in the chain.
const EMPTY: &[Piece] = &[Heap(1, b't', 8), Chain(8, ONLY), Pfs(8, 0x70)];

static ENDS: [Row; 11] = [
    Row {
        name: "the catalog names a page behind the file",
        new: SMALL,
        parts: &[UNREACHED, &[Bytes(9, 120, &[16])]],
        errors: &["Msg 8968: object 1, page 9, other 16, slot 0, value 0\n"],
        lines: &[NO_PAGES, ONE],
    },
    Row {
        name: "it names a page far behind",
        new: SMALL,
        parts: &[UNREACHED, &[Bytes(9, 120, &[99])]],
        errors: &["Msg 8968: object 1, page 9, other 99, slot 0, value 0\n"],
        lines: &[NO_PAGES, ONE],
    },
    Row {
        name: "it names page 0",
        new: SMALL,
        parts: &[UNREACHED, &[Bytes(9, 120, &[0])]],
        errors: &["Msg 8968: object 1, page 9, other 0, slot 0, value 0\n"],
        lines: &[NO_PAGES, ONE],
    },
    Row {
        name: "it names the boot page, which isn't ordinary",
        new: SMALL,
        parts: &[UNREACHED, &[Bytes(9, 120, &[9])]],
        errors: &["Msg 2575: object 1, page 9, other 9, slot 0, value 0\n"],
        lines: &[NO_PAGES, ONE],
    },
    Row {
        name: "it names a page of zeros",
        new: SMALL,
        parts: &[UNREACHED, &[Bytes(9, 120, &[10])]],
        errors: &["Msg 2575: object 1, page 10, other 9, slot 0, value 0\n"],
        lines: &[NO_PAGES, ONE],
    },
    Row {
        name: "it names a heap page",
        new: SMALL,
        parts: &[UNREACHED, &[Bytes(8, 1, &[1])]],
        errors: &["Msg 2575: object 1, page 8, other 9, slot 0, value 0\n"],
        lines: &[NO_PAGES, ONE],
    },
    Row {
        name: "it names an IAM page with another page's number",
        new: SMALL,
        parts: &[UNREACHED, &[Bytes(8, 4, &[10])]],
        errors: &["Msg 2575: object 1, page 8, other 9, slot 0, value 0\n"],
        lines: &[NO_PAGES, ONE],
    },
    Row {
        name: "it names another object's IAM page",
        new: SMALL,
        parts: &[UNREACHED, &[Bytes(8, 8, &[2])]],
        errors: &["Msg 8959: object 1, page 8, other 9, slot 0, value 2\n"],
        lines: &[NO_PAGES, ONE],
    },
    Row {
        name: "the two extents of the file are in interval 0",
        new: SMALL,
        parts: &[UNREACHED, &[Bytes(8, 96, &[1])]],
        errors: &["Msg 8968: object 1, page 8, other 0, slot 0, value 1\n"],
        lines: &[NO_PAGES, ONE],
    },
    Row {
        name: "an interval far behind the file",
        new: SMALL,
        parts: &[UNREACHED, &[Bytes(8, 96, &[5])]],
        errors: &["Msg 8968: object 1, page 8, other 0, slot 0, value 5\n"],
        lines: &[NO_PAGES, ONE],
    },
    Row {
        name: "the object is asked before the interval",
        new: SMALL,
        parts: &[UNREACHED, &[Bytes(8, 8, &[2]), Bytes(8, 96, &[5])]],
        errors: &["Msg 8959: object 1, page 8, other 9, slot 0, value 2\n"],
        lines: &[NO_PAGES, ONE],
    },
];

static SAID_WRONG: [Row; 9] = [
    Row {
        name: "the first page has one before it",
        new: SMALL,
        parts: &[EMPTY, &[Bytes(8, 12, &[3])]],
        errors: &["Msg 8969: object 1, page 8, other 3, slot 0, value 1\n"],
        lines: &[NO_PAGES, ONE],
    },
    Row {
        name: "the next is behind the file",
        new: SMALL,
        parts: &[EMPTY, &[Bytes(8, 16, &[99])]],
        errors: &["Msg 8968: object 1, page 8, other 99, slot 0, value 0\n"],
        lines: &[NO_PAGES, ONE],
    },
    Row {
        name: "the next is the page itself",
        new: SMALL,
        parts: &[EMPTY, &[Bytes(8, 16, &[8])]],
        errors: &["Msg 8969: object 1, page 8, other 8, slot 0, value 0\n"],
        lines: &[NO_PAGES, ONE],
    },
    Row {
        name: "the next is the boot page",
        new: SMALL,
        parts: &[EMPTY, &[Bytes(8, 16, &[9])]],
        errors: &["Msg 2575: object 1, page 9, other 8, slot 0, value 0\n"],
        lines: &[NO_PAGES, ONE],
    },
    Row {
        name: "a wrong sequence",
        new: SMALL,
        parts: &[EMPTY, &[Bytes(8, 100, &[4])]],
        errors: &["Msg 2577: object 1, page 8, other 0, slot 0, value 4\n"],
        lines: &[NO_PAGES, ONE],
    },
    Row {
        name: "a slot holds a page behind the file",
        new: SMALL,
        parts: &[EMPTY, &[Bytes(8, 116, &[16])]],
        errors: &["Msg 8968: object 1, page 8, other 16, slot 3, value 0\n"],
        lines: &[NO_PAGES, ONE],
    },
    Row {
        name: "the last slot holds the last number",
        new: SMALL,
        parts: &[EMPTY, &[Bytes(8, 132, &[255, 255, 255, 255])]],
        errors: &["Msg 8968: object 1, page 8, other 4294967295, slot 7, value 0\n"],
        lines: &[NO_PAGES, ONE],
    },
    Row {
        name: "extent 2 is marked, in a file of two",
        new: SMALL,
        parts: &[EMPTY, &[Bytes(8, 136, &[0b100])]],
        errors: &["Msg 2579: object 1, page 8, other 0, slot 0, value 2\n"],
        lines: &[NO_PAGES, ONE],
    },
    Row {
        name: "extent 63 is marked, the last of an interval of 64",
        new: SMALL,
        parts: &[EMPTY, &[Bytes(8, 143, &[0x80])]],
        errors: &["Msg 2579: object 1, page 8, other 0, slot 0, value 63\n"],
        lines: &[NO_PAGES, ONE],
    },
];

// Page 10 is the second page of the chain, of sequence 1, and page 8 names it and is before it. Its byte is that of
// a page of a chain.
const SECOND: &[Piece] = &[
    Bytes(8, 16, &[10]),
    Bytes(10, 0, &[1, 10, 0, 0, 10, 0, 0, 0, 1, 0, 0, 0, 8]),
    Bytes(10, 100, &[1]),
    Bytes(1, 106, &[0x70]),
];

const SECOND_OF_INTERVAL: &str = "Msg 8947: object 1, page 10, other 8, slot 0, value 0\n";

static LONGER: [Row; 4] = [
    Row {
        name: "two pages of one interval",
        new: SMALL,
        parts: &[EMPTY, SECOND],
        errors: &[SECOND_OF_INTERVAL],
        lines: &[NO_PAGES, ONE],
    },
    // The second page is of sequence 0, has no page before it, and the chain comes back to page 8. The slots of the
    // first page count alone.
    Row {
        name: "a chain that comes back",
        new: SMALL,
        parts: &[
            EMPTY,
            SECOND,
            &[
                Bytes(10, 100, &[0]),
                Bytes(10, 12, &[0]),
                Bytes(10, 16, &[8]),
                Bytes(10, 104, &[16]),
            ],
        ],
        errors: &[
            "Msg 2577: object 1, page 10, other 0, slot 0, value 0\n",
            SECOND_OF_INTERVAL,
            "Msg 8969: object 1, page 8, other 10, slot 0, value 0\n",
            "Msg 8969: object 1, page 10, other 0, slot 0, value 1\n",
        ],
        lines: &[
            NO_PAGES,
            "Msg 8989: 4 allocation errors, 0 consistency errors\n",
        ],
    },
    // Errors of one number stand by object, page, other, slot and value.
    Row {
        name: "all that a page of a chain says is wrong",
        new: SMALL,
        parts: &[
            EMPTY,
            &[
                Bytes(8, 12, &[3, 0, 0, 0, 99]),
                Bytes(8, 100, &[4]),
                Bytes(8, 104, &[16]),
                Bytes(8, 116, &[16]),
                Bytes(8, 136, &[0b100]),
            ],
        ],
        errors: &[
            "Msg 2577: object 1, page 8, other 0, slot 0, value 4\n",
            "Msg 2579: object 1, page 8, other 0, slot 0, value 2\n",
            "Msg 8968: object 1, page 8, other 16, slot 0, value 0\n",
            "Msg 8968: object 1, page 8, other 16, slot 3, value 0\n",
            "Msg 8968: object 1, page 8, other 99, slot 0, value 0\n",
            "Msg 8969: object 1, page 8, other 3, slot 0, value 1\n",
        ],
        lines: &[
            NO_PAGES,
            "Msg 8989: 6 allocation errors, 0 consistency errors\n",
        ],
    },
    // A page that is allocated and has no use is told by its byte, 0x70.
    Row {
        name: "a page that its chain doesn't reach",
        new: SMALL,
        parts: &[EMPTY, &[Bytes(8, 8, &[2])]],
        errors: &[
            "Msg 8906: object 0, page 8, other 0, slot 0, value 112\n",
            "Msg 8959: object 1, page 8, other 9, slot 0, value 2\n",
        ],
        lines: &[
            NO_PAGES,
            "Msg 8989: 2 allocation errors, 0 consistency errors\n",
        ],
    },
];

// An interval has 64 extents: what stands behind their marks says nothing, nor does the rest of the header.
static NOT_ASKED: [Row; 7] = [
    Row {
        name: "behind the marks",
        new: SMALL,
        parts: &[EMPTY, &[Bytes(8, 144, &[1])]],
        errors: &[],
        lines: &[NO_PAGES, CLEAN],
    },
    Row {
        name: "the last byte",
        new: SMALL,
        parts: &[EMPTY, &[Bytes(8, 8191, &[1])]],
        errors: &[],
        lines: &[NO_PAGES, CLEAN],
    },
    Row {
        name: "byte 0",
        new: SMALL,
        parts: &[EMPTY, &[Bytes(8, 0, &[2])]],
        errors: &[],
        lines: &[NO_PAGES, CLEAN],
    },
    Row {
        name: "the level",
        new: SMALL,
        parts: &[EMPTY, &[Bytes(8, 2, &[1])]],
        errors: &[],
        lines: &[NO_PAGES, CLEAN],
    },
    Row {
        name: "byte 3",
        new: SMALL,
        parts: &[EMPTY, &[Bytes(8, 3, &[7])]],
        errors: &[],
        lines: &[NO_PAGES, CLEAN],
    },
    Row {
        name: "the slots of a page",
        new: SMALL,
        parts: &[EMPTY, &[Bytes(8, 20, &[9])]],
        errors: &[],
        lines: &[NO_PAGES, CLEAN],
    },
    Row {
        name: "behind the header's fields",
        new: SMALL,
        parts: &[EMPTY, &[Bytes(8, 28, &[1])]],
        errors: &[],
        lines: &[NO_PAGES, CLEAN],
    },
];

#[test]
fn where_a_chain_ends_and_what_its_pages_say_wrong(rt: HostRuntime) -> Result<(), Fail> {
    expect_rows(rt.alloc(), &ENDS)?;
    expect_rows(rt.alloc(), &SAID_WRONG)?;
    expect_rows(rt.alloc(), &LONGER)?;
    expect_rows(rt.alloc(), &NOT_ASKED)
}
