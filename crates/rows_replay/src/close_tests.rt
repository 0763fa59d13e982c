// The close of a run: items, changed pages and replies, and what stands where a device fails.
use checkdb_top::{Device, Status};
use rows_files::objects::pfs;
use rows_files::replays::{Fault, Ran, replay_failing};
use rows_files::trees::{empty_heap, put_in};
use std::alloc::Global;
use std::test::Fail;

// The items of `INSERT t 1 'a'` into the empty heap page 10. In each a number has its lowest byte first.
//
// Start: session 1, statement 1, transaction 1, no message, 4 Changes of 118 bytes, and 3 resources: table 1, PFS
// byte 10, page 10.
const START: [u8; 48] = [
    1, 1, 0, 1, 0, 0, 0, 1, 0, 0, 0, 0, 0, 0, 0, 0, 0, 4, 0, 0, 0, 118, 0, 0, 0, 0, 0, 0, 0, 3, 0,
    0, 0, 2, 1, 0, 0, 0, 4, 10, 0, 0, 0, 5, 10, 0, 0, 0,
];

// Change of transaction 1: bytes of page 1 from 106 on, one byte, 0x60 before and 0x61 after. The row and its slot
// use 14 of 8,096 bytes.
const PFS_BYTE: [u8; 22] = [
    2, 1, 0, 0, 0, 0, 0, 0, 0, 1, 1, 0, 0, 0, 106, 0, 0, 0, 1, 0, 0x60, 0x61,
];

// Change: bytes of page 10 from 96 on, 12 bytes. The row has status 0x10, length 12, key 1 and payload `a`.
const ROW: [u8; 44] = [
    2, 1, 0, 0, 0, 0, 0, 0, 0, 1, 10, 0, 0, 0, 96, 0, 0, 0, 12, 0, 0, 0, 0, 0, 0, 0, 0, 0, 0, 0, 0,
    0, 0x10, 12, 0, 1, 0, 0, 0, 0, 0, 0, 0, b'a',
];

// Change: a byte of page 10 at 8,190. The slot has offset 96.
const SLOT: [u8; 22] = [
    2, 1, 0, 0, 0, 0, 0, 0, 0, 1, 10, 0, 0, 0, 0xfe, 0x1f, 0, 0, 1, 0, 0, 96,
];

// Change: bytes of page 10 from 20 on, 5 bytes. There are 0 slots and then 1, 8,096 bytes free and then 8,082; the
// rows end at 96 and then at 108, of which the high byte stays.
const HEADER: [u8; 30] = [
    2, 1, 0, 0, 0, 0, 0, 0, 0, 1, 10, 0, 0, 0, 20, 0, 0, 0, 5, 0, 0, 0, 0xa0, 0x1f, 96, 1, 0, 0x92,
    0x1f, 108,
];

const COMMIT: [u8; 9] = [4, 1, 0, 0, 0, 0, 0, 0, 0];

fn items(alloc: Global) -> Result<Vec<u8>, Fail> {
    let mut bytes = Vec::new(alloc);
    for item in [
        &START[..],
        &PFS_BYTE[..],
        &ROW[..],
        &SLOT[..],
        &HEADER[..],
        &COMMIT[..],
    ] {
        bytes.extend_from_slice(item)?;
    }
    Ok(bytes)
}

// The file with none, the first, or both of the pages that the statement changes: 1 and 10.
fn written(alloc: Global, pages: u8) -> Result<Vec<u8>, Fail> {
    let mut file = empty_heap(alloc, 0x60)?;
    if pages > 0 {
        pfs(&mut file, 10, 0x61);
    }
    if pages > 1 {
        put_in(&mut file, 10, 20, &[1, 0, 0x92, 0x1f, 108, 0]);
        put_in(
            &mut file,
            10,
            96,
            &[0x10, 12, 0, 1, 0, 0, 0, 0, 0, 0, 0, b'a'],
        );
        put_in(&mut file, 10, 8190, &[96, 0]);
    }
    Ok(file)
}

const SOURCE: Status = Status::Device {
    which: Device::Source,
};

const VOLUME: Status = Status::Device {
    which: Device::Volume,
};

const LOG: Status = Status::Device { which: Device::Log };

const SINK: Status = Status::Device {
    which: Device::Sink,
};

fn one_insert(alloc: Global, fault: Fault) -> Result<Ran, Fail> {
    let file = empty_heap(alloc, 0x60)?;
    let script = ["INSERT t 1 'a'\n"];
    replay_failing(alloc, file, Vec::new(alloc), "", &script, fault)
}

// Whether a run has left a front of the items, so many of the changed pages, and these replies.
fn has_written(alloc: Global, ran: &Ran, pages: u8, replies: &str) -> Result<bool, Fail> {
    let due = items(alloc)?;
    let file = written(alloc, pages)?;
    Ok(
        due.as_slice().starts_with(ran.log.as_slice())
            && ran.file.as_slice() == file.as_slice()
            && ran.output.as_slice() == replies.as_bytes(),
    )
}

// Each fault, the status of the run, and what stands after it: so many bytes of the items, so many of the changed
// pages, and the replies. Nothing is changed before the close; there the log is appended to first, then the pages are written, rising, then
// the replies.
static FAULTS: [(Fault, Status, usize, u8, &str); 12] = [
    (Fault::Never, Status::Clean, 175, 2, "1.1 ROWS 1\n"),
    (Fault::Schedule(1), SOURCE, 0, 0, ""),
    (Fault::Script(1), SOURCE, 0, 0, ""),
    (Fault::Script(2), SOURCE, 0, 0, ""),
    (Fault::Read(0), VOLUME, 0, 0, ""),
    (Fault::Read(10), VOLUME, 0, 0, ""),
    (Fault::LogRead, LOG, 0, 0, ""),
    (Fault::LogAppend(0), LOG, 0, 0, ""),
    (Fault::LogAppend(47), LOG, 47, 0, ""),
    (Fault::Write(1), VOLUME, 175, 0, ""),
    (Fault::Write(10), VOLUME, 175, 1, ""),
    (Fault::Output(1), SINK, 175, 2, ""),
];

#[test]
fn what_stands_after_each_fault(rt: HostRuntime) -> Result<(), Fail> {
    let alloc = rt.alloc();
    for (fault, status, log, pages, replies) in FAULTS.iter() {
        let ran = one_insert(alloc, *fault)?;
        assert!(rt; ran.status == *status && ran.log.len() == *log);
        assert!(rt; has_written(alloc, &ran, *pages, replies)?);
    }
    Ok(())
}

// A run without items appends nothing, and writes no page: none fails that was told to.
#[test]
fn a_run_without_items_writes_nothing(rt: HostRuntime) -> Result<(), Fail> {
    let alloc = rt.alloc();
    for page in 0..16 {
        let file = empty_heap(alloc, 0x60)?;
        let fault = Fault::Write(page);
        let ran = replay_failing(alloc, file, Vec::new(alloc), "", &[""], fault)?;
        assert!(rt; ran.status == Status::Clean && ran.log.is_empty());
    }
    Ok(())
}
