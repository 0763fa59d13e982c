// The header and the slots of one page of a still file.
use checkdb_top::{Device, FileWhy, Status};
use rows_files::files::base;
use rows_files::objects::place;
use rows_files::pieces::Piece::{Bytes, HeapPage, Rows};
use rows_files::pieces::{New, Piece};
use rows_files::rows::{Run, expect_runs};
use rows_files::still::run;
use rows_files::trees::put_in;
use std::test::Fail;

const SMALL: New = New::Small(16);

const HEAP_HEAD: &str =
    "page 10\ntype 1 level 0 object 1\nprev 0 next 0\nslots 1 free 8082 freedata 108 ghosts 0\n";

// Page 10 is a heap page with a row that has a payload of one byte.
const ROW: &[Piece] = &[HeapPage(10, 1), Rows(10, &[(1, 12)]), Bytes(10, 107, b"a")];

// A GAM page of a wrong type and number, and page 12, whose links and counts no page should have.
const ODD: &[Piece] = &[
    Bytes(2, 1, &[0, 0, 0, 7]),
    Bytes(12, 0, &[1, 2, 3, 0, 12, 0, 0, 0, 0, 1, 0, 0]),
    Bytes(12, 12, &[11, 0, 0, 0, 255, 255, 255, 255]),
    Bytes(12, 20, &[2, 0, 0xff, 0xff, 0, 0x20, 1, 0]),
    Bytes(12, 8188, &[96, 0, 109, 0]),
];

// Each page is shown as it is.
static SHOWN: [Run; 5] = [
    Run {
        name: "a page of a wrong type and number",
        words: &["page", "d", "2"],
        new: SMALL,
        parts: &[ROW, ODD],
        unread: None,
        unwritten: None,
        status: Status::Clean,
        lines: &[
            "page 2\ntype 0 level 0 object 0\nprev 0 next 0\nslots 0 free 0 freedata 0 ghosts 0\n",
        ],
    },
    Run {
        name: "the catalog",
        words: &["page", "d", "9"],
        new: SMALL,
        parts: &[ROW, ODD],
        unread: None,
        unwritten: None,
        status: Status::Clean,
        lines: &[
            "page 9\ntype 13 level 0 object 0\nprev 0 next 0\nslots 0 free 0 freedata 0 ghosts 0\n",
        ],
    },
    Run {
        name: "a heap page",
        words: &["page", "d", "10"],
        new: SMALL,
        parts: &[ROW, ODD],
        unread: None,
        unwritten: None,
        status: Status::Clean,
        lines: &[HEAP_HEAD, "slot 0 offset 96\n"],
    },
    Run {
        name: "a page that no page should be",
        words: &["page", "d", "12"],
        new: SMALL,
        parts: &[ROW, ODD],
        unread: None,
        unwritten: None,
        status: Status::Clean,
        lines: &[
            "page 12\ntype 2 level 3 object 256\nprev 11 next 4294967295\n",
            "slots 2 free 65535 freedata 8192 ghosts 1\nslot 0 offset 109\nslot 1 offset 96\n",
        ],
    },
    Run {
        name: "the last page",
        words: &["page", "d", "15"],
        new: SMALL,
        parts: &[ROW, ODD],
        unread: None,
        unwritten: None,
        status: Status::Clean,
        lines: &[
            "page 15\ntype 0 level 0 object 0\nprev 0 next 0\nslots 0 free 0 freedata 0 ghosts 0\n",
        ],
    },
];

// The file has pages 0 to 15.
static WORDS: [Run; 9] = [
    Run {
        name: "a page behind the file",
        words: &["page", "d", "16"],
        new: SMALL,
        parts: &[],
        unread: None,
        unwritten: None,
        status: Status::Words { at: 3 },
        lines: &[],
    },
    Run {
        name: "a page further behind",
        words: &["page", "d", "17"],
        new: SMALL,
        parts: &[],
        unread: None,
        unwritten: None,
        status: Status::Words { at: 3 },
        lines: &[],
    },
    Run {
        name: "the last number",
        words: &["page", "d", "4294967295"],
        new: SMALL,
        parts: &[],
        unread: None,
        unwritten: None,
        status: Status::Words { at: 3 },
        lines: &[],
    },
    Run {
        name: "no file",
        words: &["page"],
        new: SMALL,
        parts: &[],
        unread: None,
        unwritten: None,
        status: Status::Words { at: 2 },
        lines: &[],
    },
    Run {
        name: "no page",
        words: &["page", "d"],
        new: SMALL,
        parts: &[],
        unread: None,
        unwritten: None,
        status: Status::Words { at: 3 },
        lines: &[],
    },
    Run {
        name: "a leading zero",
        words: &["page", "d", "09"],
        new: SMALL,
        parts: &[],
        unread: None,
        unwritten: None,
        status: Status::Words { at: 3 },
        lines: &[],
    },
    Run {
        name: "a negative number",
        words: &["page", "d", "-9"],
        new: SMALL,
        parts: &[],
        unread: None,
        unwritten: None,
        status: Status::Words { at: 3 },
        lines: &[],
    },
    Run {
        name: "a number of five bytes",
        words: &["page", "d", "4294967296"],
        new: SMALL,
        parts: &[],
        unread: None,
        unwritten: None,
        status: Status::Words { at: 3 },
        lines: &[],
    },
    Run {
        name: "a word too many",
        words: &["page", "d", "9", "9"],
        new: SMALL,
        parts: &[],
        unread: None,
        unwritten: None,
        status: Status::Words { at: 4 },
        lines: &[],
    },
];

// The file's tests come before the number of the page.
static FILES: [Run; 8] = [
    Run {
        name: "5 bytes, page 0",
        words: &["page", "d", "0"],
        new: New::Zeros(5),
        parts: &[],
        unread: None,
        unwritten: None,
        status: Status::File(FileWhy::Size),
        lines: &[],
    },
    Run {
        name: "65,536 bytes, page 0",
        words: &["page", "d", "0"],
        new: New::Zeros(65_536),
        parts: &[],
        unread: None,
        unwritten: None,
        status: Status::File(FileWhy::Size),
        lines: &[],
    },
    Run {
        name: "131,073 bytes, page 0",
        words: &["page", "d", "0"],
        new: New::Zeros(131_073),
        parts: &[],
        unread: None,
        unwritten: None,
        status: Status::File(FileWhy::Size),
        lines: &[],
    },
    Run {
        name: "5 bytes, page 16",
        words: &["page", "d", "16"],
        new: New::Zeros(5),
        parts: &[],
        unread: None,
        unwritten: None,
        status: Status::File(FileWhy::Size),
        lines: &[],
    },
    Run {
        name: "65,536 bytes, page 16",
        words: &["page", "d", "16"],
        new: New::Zeros(65_536),
        parts: &[],
        unread: None,
        unwritten: None,
        status: Status::File(FileWhy::Size),
        lines: &[],
    },
    Run {
        name: "131,073 bytes, page 16",
        words: &["page", "d", "16"],
        new: New::Zeros(131_073),
        parts: &[],
        unread: None,
        unwritten: None,
        status: Status::File(FileWhy::Size),
        lines: &[],
    },
    Run {
        name: "another version, page 0",
        words: &["page", "d", "0"],
        new: SMALL,
        parts: &[&[Bytes(0, 104, &[9])]],
        unread: None,
        unwritten: None,
        status: Status::File(FileWhy::Version),
        lines: &[],
    },
    Run {
        name: "another version, page 16",
        words: &["page", "d", "16"],
        new: SMALL,
        parts: &[&[Bytes(0, 104, &[9])]],
        unread: None,
        unwritten: None,
        status: Status::File(FileWhy::Version),
        lines: &[],
    },
];

// Page 0 and the page itself are all that is read. A failing write leaves a front of the page.
static DEVICES: [Run; 8] = [
    Run {
        name: "page 0 can not be read",
        words: &["page", "d", "10"],
        new: SMALL,
        parts: &[ROW],
        unread: Some(0),
        unwritten: None,
        status: Status::Device {
            which: Device::Volume,
        },
        lines: &[],
    },
    Run {
        name: "page 10 can not be read",
        words: &["page", "d", "10"],
        new: SMALL,
        parts: &[ROW],
        unread: Some(10),
        unwritten: None,
        status: Status::Device {
            which: Device::Volume,
        },
        lines: &[],
    },
    Run {
        name: "page 1 is not read",
        words: &["page", "d", "10"],
        new: SMALL,
        parts: &[ROW],
        unread: Some(1),
        unwritten: None,
        status: Status::Clean,
        lines: &[HEAP_HEAD, "slot 0 offset 96\n"],
    },
    Run {
        name: "page 2 is not read",
        words: &["page", "d", "10"],
        new: SMALL,
        parts: &[ROW],
        unread: Some(2),
        unwritten: None,
        status: Status::Clean,
        lines: &[HEAP_HEAD, "slot 0 offset 96\n"],
    },
    Run {
        name: "page 9 is not read",
        words: &["page", "d", "10"],
        new: SMALL,
        parts: &[ROW],
        unread: Some(9),
        unwritten: None,
        status: Status::Clean,
        lines: &[HEAP_HEAD, "slot 0 offset 96\n"],
    },
    Run {
        name: "page 11 is not read",
        words: &["page", "d", "10"],
        new: SMALL,
        parts: &[ROW],
        unread: Some(11),
        unwritten: None,
        status: Status::Clean,
        lines: &[HEAP_HEAD, "slot 0 offset 96\n"],
    },
    Run {
        name: "the first call of the output fails",
        words: &["page", "d", "10"],
        new: SMALL,
        parts: &[ROW],
        unread: None,
        unwritten: Some(1),
        status: Status::Device {
            which: Device::Sink,
        },
        lines: &[],
    },
    Run {
        name: "the second call of the output fails",
        words: &["page", "d", "10"],
        new: SMALL,
        parts: &[ROW],
        unread: None,
        unwritten: Some(2),
        status: Status::Device {
            which: Device::Sink,
        },
        lines: &[HEAP_HEAD],
    },
];

#[test]
fn a_page_is_shown_as_it_is(rt: HostRuntime) -> Result<(), Fail> {
    expect_runs(rt.alloc(), &SHOWN)?;
    expect_runs(rt.alloc(), &WORDS)?;
    expect_runs(rt.alloc(), &FILES)?;
    expect_runs(rt.alloc(), &DEVICES)
}

const MANY_HEAD: &str =
    "page 12\ntype 1 level 0 object 0\nprev 0 next 0\nslots 65535 free 0 freedata 0 ghosts 0\n";

// A line has 15 bytes and the digits of its slot: 10 slots of one, 90 of two, 900 of three, 3,048 of four.
const MANY_BYTES: usize = 10 * 16 + 90 * 17 + 900 * 18 + 3048 * 19;

// A page can have 4,048 slots: the entry of the last stands at 96.
#[test]
fn no_more_slots_are_shown_than_a_page_has(rt: HostRuntime) -> Result<(), Fail> {
    let alloc = rt.alloc();
    let mut file = base(alloc, 16)?;
    place(&mut file, 12, 1);
    put_in(&mut file, 12, 20, &[0xff, 0xff]);
    let words = ["page", "d", "12"];
    let (status, text) = run(alloc, &words, file, Vec::new(alloc), None)?;
    let is_right = status == Status::Clean
        && text.len() == MANY_HEAD.len() + MANY_BYTES
        && text.as_slice().starts_with(MANY_HEAD.as_bytes())
        && text.as_slice().ends_with(b"\nslot 4047 offset 0\n");
    assert!(rt; is_right);
    Ok(())
}
