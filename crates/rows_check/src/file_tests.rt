// The tests of a file, the words of `check`, and devices that fail.
use checkdb_top::{Device, FileWhy, Status};
use rows_files::pieces::Piece::{Bytes, Chain, Heap, HeapPage, Pfs, Slots};
use rows_files::pieces::{New, ONLY, Piece};
use rows_files::rows::{Run, expect_runs};
use std::test::Fail;

const SMALL: New = New::Small(16);

static SIZES: [Run; 4] = [
    Run {
        name: "5 bytes",
        words: &["check", "d"],
        new: New::Zeros(5),
        parts: &[],
        unread: None,
        unwritten: None,
        status: Status::File(FileWhy::Size),
        lines: &[],
    },
    Run {
        name: "65,536 bytes",
        words: &["check", "d"],
        new: New::Zeros(65_536),
        parts: &[],
        unread: None,
        unwritten: None,
        status: Status::File(FileWhy::Size),
        lines: &[],
    },
    Run {
        name: "131,073 bytes",
        words: &["check", "d"],
        new: New::Zeros(131_073),
        parts: &[],
        unread: None,
        unwritten: None,
        status: Status::File(FileWhy::Size),
        lines: &[],
    },
    Run {
        name: "139,264 bytes",
        words: &["check", "d"],
        new: New::Zeros(139_264),
        parts: &[],
        unread: None,
        unwritten: None,
        status: Status::File(FileWhy::Size),
        lines: &[],
    },
];

// The first test of page 0 that fails is named.
static REFUSALS: [Run; 10] = [
    Run {
        name: "another header version",
        words: &["check", "d"],
        new: SMALL,
        parts: &[&[Bytes(0, 0, &[2])]],
        unread: None,
        unwritten: None,
        status: Status::File(FileWhy::Header),
        lines: &[],
    },
    Run {
        name: "the header is asked before the version",
        words: &["check", "d"],
        new: SMALL,
        parts: &[&[Bytes(0, 1, &[14]), Bytes(0, 104, &[9])]],
        unread: None,
        unwritten: None,
        status: Status::File(FileWhy::Header),
        lines: &[],
    },
    Run {
        name: "another number",
        words: &["check", "d"],
        new: SMALL,
        parts: &[&[Bytes(0, 4, &[1])]],
        unread: None,
        unwritten: None,
        status: Status::File(FileWhy::Header),
        lines: &[],
    },
    Run {
        name: "another signature",
        words: &["check", "d"],
        new: SMALL,
        parts: &[&[Bytes(0, 103, b"2")]],
        unread: None,
        unwritten: None,
        status: Status::File(FileWhy::Header),
        lines: &[],
    },
    Run {
        name: "the version is asked before the geometry",
        words: &["check", "d"],
        new: SMALL,
        parts: &[&[Bytes(0, 104, &[9]), Bytes(0, 106, &[3])]],
        unread: None,
        unwritten: None,
        status: Status::File(FileWhy::Version),
        lines: &[],
    },
    Run {
        name: "the high byte of the version",
        words: &["check", "d"],
        new: SMALL,
        parts: &[&[Bytes(0, 105, &[1])]],
        unread: None,
        unwritten: None,
        status: Status::File(FileWhy::Version),
        lines: &[],
    },
    Run {
        name: "the geometry is asked before the count",
        words: &["check", "d"],
        new: SMALL,
        parts: &[&[Bytes(0, 106, &[0]), Bytes(0, 108, &[17])]],
        unread: None,
        unwritten: None,
        status: Status::File(FileWhy::Geometry),
        lines: &[],
    },
    Run {
        name: "no geometry has number 3",
        words: &["check", "d"],
        new: SMALL,
        parts: &[&[Bytes(0, 106, &[3])]],
        unread: None,
        unwritten: None,
        status: Status::File(FileWhy::Geometry),
        lines: &[],
    },
    Run {
        name: "a count that is not the size",
        words: &["check", "d"],
        new: SMALL,
        parts: &[&[Bytes(0, 108, &[17])]],
        unread: None,
        unwritten: None,
        status: Status::File(FileWhy::Count),
        lines: &[],
    },
    Run {
        name: "a count that is not the size, of the standard geometry",
        words: &["check", "d"],
        new: SMALL,
        parts: &[&[Bytes(0, 106, &[1]), Bytes(0, 108, &[24])]],
        unread: None,
        unwritten: None,
        status: Status::File(FileWhy::Count),
        lines: &[],
    },
];

// The first wrong word is named.
static WORDS: [Run; 6] = [
    Run {
        name: "no word",
        words: &[],
        new: SMALL,
        parts: &[],
        unread: None,
        unwritten: None,
        status: Status::Words { at: 1 },
        lines: &[],
    },
    Run {
        name: "no command",
        words: &["repair", "d"],
        new: SMALL,
        parts: &[],
        unread: None,
        unwritten: None,
        status: Status::Words { at: 1 },
        lines: &[],
    },
    Run {
        name: "no file",
        words: &["check"],
        new: SMALL,
        parts: &[],
        unread: None,
        unwritten: None,
        status: Status::Words { at: 2 },
        lines: &[],
    },
    Run {
        name: "a hyphen first",
        words: &["check", "-d"],
        new: SMALL,
        parts: &[],
        unread: None,
        unwritten: None,
        status: Status::Words { at: 2 },
        lines: &[],
    },
    Run {
        name: "an empty name",
        words: &["check", ""],
        new: SMALL,
        parts: &[],
        unread: None,
        unwritten: None,
        status: Status::Words { at: 2 },
        lines: &[],
    },
    Run {
        name: "a word too many",
        words: &["check", "d", "e"],
        new: SMALL,
        parts: &[],
        unread: None,
        unwritten: None,
        status: Status::Words { at: 3 },
        lines: &[],
    },
];

// A heap with one page.
const HEAP: &[Piece] = &[
    Heap(1, b't', 8),
    Chain(8, ONLY),
    Slots(8, &[10]),
    HeapPage(10, 1),
    Pfs(8, 0x70),
    Pfs(10, 0x60),
];

// The pages that a check reads of a file with a heap.
static READS: [Run; 8] = [
    Run {
        name: "the file's page fails",
        words: &["check", "d"],
        new: SMALL,
        parts: &[HEAP],
        unread: Some(0),
        unwritten: None,
        status: Status::Device {
            which: Device::Volume,
        },
        lines: &[],
    },
    Run {
        name: "the PFS page fails",
        words: &["check", "d"],
        new: SMALL,
        parts: &[HEAP],
        unread: Some(1),
        unwritten: None,
        status: Status::Device {
            which: Device::Volume,
        },
        lines: &[],
    },
    Run {
        name: "the GAM page fails",
        words: &["check", "d"],
        new: SMALL,
        parts: &[HEAP],
        unread: Some(2),
        unwritten: None,
        status: Status::Device {
            which: Device::Volume,
        },
        lines: &[],
    },
    Run {
        name: "the SGAM page fails",
        words: &["check", "d"],
        new: SMALL,
        parts: &[HEAP],
        unread: Some(3),
        unwritten: None,
        status: Status::Device {
            which: Device::Volume,
        },
        lines: &[],
    },
    Run {
        name: "the heap's chain fails",
        words: &["check", "d"],
        new: SMALL,
        parts: &[HEAP],
        unread: Some(8),
        unwritten: None,
        status: Status::Device {
            which: Device::Volume,
        },
        lines: &[],
    },
    Run {
        name: "the catalog fails",
        words: &["check", "d"],
        new: SMALL,
        parts: &[HEAP],
        unread: Some(9),
        unwritten: None,
        status: Status::Device {
            which: Device::Volume,
        },
        lines: &[],
    },
    Run {
        name: "the heap's page fails",
        words: &["check", "d"],
        new: SMALL,
        parts: &[HEAP],
        unread: Some(10),
        unwritten: None,
        status: Status::Device {
            which: Device::Volume,
        },
        lines: &[],
    },
    Run {
        name: "a refused file is read no further",
        words: &["check", "d"],
        new: SMALL,
        parts: &[&[Bytes(0, 104, &[9])]],
        unread: Some(9),
        unwritten: None,
        status: Status::File(FileWhy::Version),
        lines: &[],
    },
];

// Extent 3 is of no use, and isn't free.
const LOST: &[Piece] = &[Bytes(3, 96, &[0b1010])];

// A failing write leaves a front of the report.
static WRITES: [Run; 2] = [
    Run {
        name: "the first call fails",
        words: &["check", "d"],
        new: New::Small(32),
        parts: &[LOST],
        unread: None,
        unwritten: Some(1),
        status: Status::Device {
            which: Device::Sink,
        },
        lines: &[],
    },
    Run {
        name: "the second call fails",
        words: &["check", "d"],
        new: New::Small(32),
        parts: &[LOST],
        unread: None,
        unwritten: Some(2),
        status: Status::Device {
            which: Device::Sink,
        },
        lines: &["Msg 8903: object 0, page 24, other 0, slot 0, value 0\n"],
    },
];

#[test]
fn words_files_and_devices(rt: HostRuntime) -> Result<(), Fail> {
    expect_runs(rt.alloc(), &SIZES)?;
    expect_runs(rt.alloc(), &REFUSALS)?;
    expect_runs(rt.alloc(), &WORDS)?;
    expect_runs(rt.alloc(), &READS)?;
    expect_runs(rt.alloc(), &WRITES)
}
