// The bytes of items of the log.
ghost use Rattle.std.specs.Prelude.{IsTrue};
ghost use Rattle.spec_log.specs.Items.{has_form};

use log_rec::{Cell, Record, encode};
use spec_file::{ExtentNo, Lsn, ObjId, PageNo, Resource, Tran};
use spec_log::Values;
use std::alloc::Global;
use std::process::Abort;

// An item's bytes.
fn expect_item(rt: &impl Abort, alloc: Global, item: Record, wanted: &[u8])
    requires { IsTrue (has_form item) }
{
    let mut bytes = Vec::new(alloc);
    encode(&item, &mut bytes).expect(rt, "memory");
    let is_same = bytes.as_slice() == wanted;
    assert!(rt; is_same);
}

static TAKES: [Resource; 5] = [
    Resource::Catalog,
    Resource::Table(ObjId(1)),
    Resource::Extent(ExtentNo(1)),
    Resource::Byte(PageNo(8)),
    Resource::Page(PageNo(8)),
];

static START: [u8; 58] = [
    1, 1, 0, 1, 0, 0, 0, 1, 0, 0, 0, 0, 0, 0, 0, 0, 0, 3, 0, 0, 0, 130, 0, 0, 0, 0, 0, 0, 0, 5, 0,
    0, 0, 1, 0, 0, 0, 0, 2, 1, 0, 0, 0, 3, 1, 0, 0, 0, 4, 8, 0, 0, 0, 5, 8, 0, 0, 0,
];

// The log of CREATE HEAP in a new file begins so.
#[test]
fn the_start_of_a_new_heap_has_58_bytes(rt: HostRuntime) {
    let start = Record::Start {
        session: 1,
        index: 1,
        tran: Tran(1),
        number: 0,
        changes: 3,
        size: 130,
        takes: Values::copied(rt.alloc(), &TAKES).expect(&rt, "memory"),
    };
    expect_item(&rt, rt.alloc(), start, &START);
}

fn put_change(rt: &impl Abort, alloc: Global, into: &mut Vec<u8>) {
    let before = Values::copied(alloc, &[0]).expect(rt, "memory");
    let after = Values::copied(alloc, &[0x70]).expect(rt, "memory");
    let change = Record::Change {
        tran: Tran(1),
        cell: Cell::Bytes {
            page: PageNo(1),
            off: 104,
        },
        before,
        after,
    };
    encode(&change, into).expect(rt, "memory");
}

static CHANGE_AND_COMMIT: [u8; 31] = [
    2, 1, 0, 0, 0, 0, 0, 0, 0, 1, 1, 0, 0, 0, 104, 0, 0, 0, 1, 0, 0, 0x70, 4, 1, 0, 0, 0, 0, 0, 0,
    0,
];

// A byte of page 1 becomes 0x70, and its transaction ends.
#[test]
fn changes_stand_one_behind_another(rt: HostRuntime) {
    let mut bytes = Vec::new(rt.alloc());
    put_change(&rt, rt.alloc(), &mut bytes);
    encode(&Record::Commit { tran: Tran(1) }, &mut bytes).expect(&rt, "memory");
    let is_same = bytes.as_slice() == CHANGE_AND_COMMIT.as_slice();
    assert!(rt; is_same);
}

fn snap() -> Record
    ensures { IsTrue (has_form result) }
{
    Record::Snap {
        session: 1,
        index: 1,
    }
}

fn undo() -> Record
    ensures { IsTrue (has_form result) }
{
    Record::Undo {
        tran: Tran(3),
        change: Lsn(256),
    }
}

fn failed() -> Record
    ensures { IsTrue (has_form result) }
{
    Record::Failed {
        session: 2,
        index: 3,
        page: PageNo(10),
    }
}

fn check_end() -> Record
    ensures { IsTrue (has_form result) }
{
    Record::CheckEnd {
        session: 2,
        index: 3,
        outcome: 1,
    }
}

static SNAP: [u8; 7] = [6, 1, 0, 1, 0, 0, 0];

static FAILED: [u8; 11] = [7, 2, 0, 3, 0, 0, 0, 10, 0, 0, 0];

static CHECK_END: [u8; 8] = [8, 2, 0, 3, 0, 0, 0, 1];

static UNDO: [u8; 17] = [3, 3, 0, 0, 0, 0, 0, 0, 0, 0, 1, 0, 0, 0, 0, 0, 0];

#[test]
fn the_other_kinds_have_their_fields_in_order(rt: HostRuntime) {
    expect_item(&rt, rt.alloc(), snap(), &SNAP);
    expect_item(&rt, rt.alloc(), undo(), &UNDO);
    expect_item(&rt, rt.alloc(), failed(), &FAILED);
    expect_item(&rt, rt.alloc(), check_end(), &CHECK_END);
}
