// The maps of a file: a new one, and each with a wrong bit, page or catalog. The bits of a map begin at 96, and so do
// the entries of the catalog on page 9.
use rows_files::pieces::New;
use rows_files::pieces::Piece::Bytes;
use rows_files::rows::{Row, expect_rows};
use std::test::Fail;

const CLEAN: &str = "Msg 8989: 0 allocation errors, 0 consistency errors\n";

const ONE: &str = "Msg 8989: 1 allocation errors, 0 consistency errors\n";

const TWO: &str = "Msg 8989: 2 allocation errors, 0 consistency errors\n";

const FIRST: &str = "Msg 8998: object 0, page 0, other 0, slot 0, value 0\n";

const SECOND: &str = "Msg 8998: object 0, page 512, other 0, slot 0, value 1\n";

static ROWS: [Row; 10] = [
    Row {
        name: "a new file of two extents",
        new: New::Small(16),
        parts: &[],
        errors: &[],
        lines: &[CLEAN],
    },
    Row {
        name: "a new file of three extents",
        new: New::Small(24),
        parts: &[],
        errors: &[],
        lines: &[CLEAN],
    },
    Row {
        name: "a new file of eleven extents",
        new: New::Small(88),
        parts: &[],
        errors: &[],
        lines: &[CLEAN],
    },
    Row {
        name: "extent 3 in both maps",
        new: New::Small(32),
        parts: &[&[Bytes(3, 96, &[0b1010])]],
        errors: &["Msg 8903: object 0, page 24, other 0, slot 0, value 0\n"],
        lines: &[ONE],
    },
    Row {
        name: "extent 10 in both maps",
        new: New::Small(88),
        parts: &[&[Bytes(3, 96, &[2, 0b100])]],
        errors: &["Msg 8903: object 0, page 80, other 0, slot 0, value 0\n"],
        lines: &[ONE],
    },
    Row {
        name: "a GAM page without its type",
        new: New::Small(16),
        parts: &[&[Bytes(2, 1, &[0])]],
        errors: &[
            "Msg 8946: object 0, page 2, other 0, slot 0, value 0\n",
            FIRST,
        ],
        lines: &[TWO],
    },
    Row {
        name: "a byte in the last entry of the catalog",
        new: New::Small(16),
        parts: &[&[Bytes(9, 5215, &[1])]],
        errors: &[
            "Msg 8946: object 0, page 9, other 0, slot 0, value 13\n",
            FIRST,
        ],
        lines: &[TWO],
    },
    Row {
        name: "system errors stand alone",
        new: New::Small(32),
        parts: &[&[
            Bytes(2, 96, &[0b1110]),
            Bytes(1, 1, &[10]),
            Bytes(3, 4, &[4]),
        ]],
        errors: &[
            "Msg 8946: object 0, page 1, other 0, slot 0, value 10\n",
            "Msg 8946: object 0, page 3, other 0, slot 0, value 9\n",
            FIRST,
        ],
        lines: &["Msg 8989: 3 allocation errors, 0 consistency errors\n"],
    },
    // The second interval has the maps 512 and 513, and begins on page 512.
    Row {
        name: "the second interval has a wrong map",
        new: New::TwoIntervals,
        parts: &[&[Bytes(512, 1, &[9])]],
        errors: &[
            "Msg 8946: object 0, page 512, other 0, slot 0, value 9\n",
            SECOND,
        ],
        lines: &[TWO],
    },
    // The first begins on page 0, and page 88 stands in it.
    Row {
        name: "each interval has a wrong map",
        new: New::TwoIntervals,
        parts: &[&[Bytes(88, 4, &[89]), Bytes(513, 4, &[2])]],
        errors: &[
            "Msg 8946: object 0, page 88, other 0, slot 0, value 11\n",
            "Msg 8946: object 0, page 513, other 0, slot 0, value 9\n",
            FIRST,
            SECOND,
        ],
        lines: &["Msg 8989: 4 allocation errors, 0 consistency errors\n"],
    },
];

#[test]
fn each_map_has_its_report(rt: HostRuntime) -> Result<(), Fail> {
    expect_rows(rt.alloc(), &ROWS)
}
