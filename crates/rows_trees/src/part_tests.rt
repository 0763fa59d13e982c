// The parts of a clean file, each broken alone: that of the catalog, of an extent, of a table.
use crate::trees::{LOW_TREE, ONE, ONE_OF_MAPS, SMALL, TABLE, THREE_PAGES};
use rows_files::pieces::Piece::Bytes;
use rows_files::rows::{Row, expect_rows};
use std::test::Fail;

const SEEN: &str = "Msg 2593: object 1, rows 2, pages 3\n";

const TWO_OF_MAPS: &str = "Msg 8989: 2 allocation errors, 0 consistency errors\n";

static CATALOG: [Row; 2] = [
    Row {
        name: "the type of a GAM page",
        new: SMALL,
        parts: &[TABLE, THREE_PAGES, LOW_TREE, &[Bytes(2, 1, &[0])]],
        errors: &[
            "Msg 8946: object 0, page 2, other 0, slot 0, value 0\n",
            "Msg 8998: object 0, page 0, other 0, slot 0, value 0\n",
        ],
        lines: &[TWO_OF_MAPS],
    },
    Row {
        name: "the last byte of the catalog",
        new: SMALL,
        parts: &[TABLE, THREE_PAGES, LOW_TREE, &[Bytes(9, 5215, &[1])]],
        errors: &[
            "Msg 8946: object 0, page 9, other 0, slot 0, value 13\n",
            "Msg 8998: object 0, page 0, other 0, slot 0, value 0\n",
        ],
        lines: &[TWO_OF_MAPS],
    },
];

static EXTENTS: [Row; 2] = [
    Row {
        name: "the GAM bit of an extent",
        new: SMALL,
        parts: &[TABLE, THREE_PAGES, LOW_TREE, &[Bytes(2, 96, &[0b10])]],
        errors: &[
            "Msg 8903: object 0, page 8, other 0, slot 0, value 0\n",
            "Msg 8913: object 0, page 8, other 0, slot 0, value 6\n",
        ],
        lines: &[SEEN, TWO_OF_MAPS],
    },
    Row {
        name: "the PFS byte of a page that nobody owns",
        new: SMALL,
        parts: &[TABLE, THREE_PAGES, LOW_TREE, &[Bytes(1, 109, &[0x40])]],
        errors: &["Msg 8906: object 0, page 13, other 0, slot 0, value 64\n"],
        lines: &[SEEN, ONE_OF_MAPS],
    },
];

static TABLES: [Row; 4] = [
    Row {
        name: "the sequence of its chain",
        new: SMALL,
        parts: &[TABLE, THREE_PAGES, LOW_TREE, &[Bytes(8, 100, &[1])]],
        errors: &["Msg 2577: object 1, page 8, other 0, slot 0, value 1\n"],
        lines: &[SEEN, ONE_OF_MAPS],
    },
    Row {
        name: "the PFS byte of a page that it uses",
        new: SMALL,
        parts: &[TABLE, THREE_PAGES, LOW_TREE, &[Bytes(1, 107, &[0x40])]],
        errors: &["Msg 8948: object 1, page 11, other 0, slot 0, value 64\n"],
        lines: &[SEEN, ONE_OF_MAPS],
    },
    Row {
        name: "that page's fullness, which rests on its rows",
        new: SMALL,
        parts: &[TABLE, THREE_PAGES, LOW_TREE, &[Bytes(1, 107, &[0x61])]],
        errors: &["Msg 8914: object 1, page 11, other 0, slot 0, value 97\n"],
        lines: &[SEEN, ONE_OF_MAPS],
    },
    Row {
        name: "its tree",
        new: SMALL,
        parts: &[TABLE, THREE_PAGES, LOW_TREE, &[Bytes(12, 99, &[40])]],
        errors: &["Msg 8933: object 1, page 12, other 10, slot 1, value 40\n"],
        lines: &[SEEN, ONE],
    },
];

#[test]
fn each_part_of_a_clean_file_alone(rt: HostRuntime) -> Result<(), Fail> {
    expect_rows(rt.alloc(), &CATALOG)?;
    expect_rows(rt.alloc(), &EXTENTS)?;
    expect_rows(rt.alloc(), &TABLES)
}
