// The bytes of an item.
ghost use Rattle.std.specs.Prelude.{◌≡◌, ◌≤◌, ◌+◌, ◌++◌, ◌∷◌, [], IsTrue, length, take, flat_map, OnOk, OnErr};
ghost use Rattle.arrayvec.specs.ArrayVec.{array_vec_len};
ghost use Rattle.byteorder.specs.Endian.{little_bytes};
ghost use Rattle.spec_log.specs.Bytes.{cell_bytes, item_bytes, resource_bytes};
ghost use Rattle.spec_log.specs.Items.{has_form};

use crate::head::{Head, head_of, push_u8, push_u16, push_u32, push_u64};
use pg_base::{append, append_three};
use spec_file::{Lsn, NoMemory, PageNo, Resource, Tran};
use spec_log::{Cell, Record};

fn resource_of(resource: &Resource) -> Head
    ensures { result.items ≡ resource_bytes resource.now }
{
    let (grain, number) = match resource {
        Resource::Catalog => (1, 0),
        Resource::Table(object) => (2, object.0),
        Resource::Extent(extent) => (3, extent.0),
        Resource::Byte(page) => (4, page.0),
        Resource::Page(page) => (5, page.0),
    };
    let mut bytes = head_of(grain);
    push_u32(&mut bytes, number);
    bytes
}

// The cell of a change, behind its kind.
fn push_cell(head: &mut Head, cell: &Cell)
    requires { array_vec_len head.old + 9 ≤ 40 }
    ensures bytes { head.new.items ≡ head.old.items ++ cell_bytes cell.now }
    ensures len { array_vec_len head.new ≡ array_vec_len head.old + 9 }
{
    let (kind, page, place) = match cell {
        Cell::Bytes { page, off } => (1, page.0, *off),
        Cell::Bit { page, n } => (2, page.0, *n),
    };
    push_u8(head, kind);
    push_u32(head, page);
    push_u32(head, place);
}

fn change_head(tran: Tran, cell: &Cell, bytes: u16) -> Head
    ensures { result.items ≡ 2 ∷ little_bytes 8 tran.0 ++ cell_bytes cell.now ++ little_bytes 2 bytes }
{
    let mut head = head_of(2);
    push_u64(&mut head, tran.0);
    push_cell(&mut head, cell);
    push_u16(&mut head, bytes);
    head
}

// An item of a transaction alone.
fn tran_head(kind: u8, tran: Tran) -> Head
    ensures bytes { result.items ≡ kind ∷ little_bytes 8 tran.0 }
    ensures len { array_vec_len result ≡ 9 }
{
    let mut head = head_of(kind);
    push_u64(&mut head, tran.0);
    head
}

// A session and a statement of it.
fn statement_head(kind: u8, session: u16, index: u32) -> Head
    ensures bytes { result.items ≡ kind ∷ little_bytes 2 session ++ little_bytes 4 index }
    ensures len { array_vec_len result ≡ 7 }
{
    let mut head = head_of(kind);
    push_u16(&mut head, session);
    push_u32(&mut head, index);
    head
}

fn undo_bytes(tran: Tran, change: Lsn) -> Head
    ensures { result.items ≡ 3 ∷ little_bytes 8 tran.0 ++ little_bytes 8 change.0 }
{
    let mut head = tran_head(3, tran);
    push_u64(&mut head, change.0);
    head
}

fn failed_bytes(session: u16, index: u32, page: PageNo) -> Head
    ensures { result.items ≡ 7 ∷ little_bytes 2 session ++ little_bytes 4 index ++ little_bytes 4 page.0 }
{
    let mut head = statement_head(7, session, index);
    push_u32(&mut head, page.0);
    head
}

fn end_bytes(session: u16, index: u32, outcome: u8) -> Head
    ensures { result.items ≡ 8 ∷ little_bytes 2 session ++ little_bytes 4 index ++ outcome ∷ [] }
{
    let mut head = statement_head(8, session, index);
    push_u8(&mut head, outcome);
    head
}

// What a Start says before the resources that it takes.
#[derive(Clone, Copy)]
struct StartHead {
    session: u16,
    index: u32,
    tran: Tran,
    number: u16,
    changes: u32,
    size: u64,
    count: u32,
}

fn start_head(start: &StartHead) -> Head
    ensures { result.items ≡ 1 ∷ little_bytes 2 start.now.session ++ little_bytes 4 start.now.index ++ little_bytes 8 start.now.tran.0
        ++ little_bytes 2 start.now.number ++ little_bytes 4 start.now.changes ++ little_bytes 8 start.now.size ++ little_bytes 4 start.now.count }
{
    let mut head = statement_head(1, start.session, start.index);
    push_u64(&mut head, start.tran.0);
    push_u16(&mut head, start.number);
    push_u32(&mut head, start.changes);
    push_u64(&mut head, start.size);
    push_u32(&mut head, start.count);
    head
}

// The resources one after another. After an error some of them may stand there.
fn push_resources(into: &mut Vec<u8>, takes: &[Resource]) -> Result<(), NoMemory>
    ensures ok { OnOk result (into.new.items ≡ into.old.items ++ flat_map resource_bytes takes.now) }
    ensures err { OnErr result (take (length into.old.items) into.new.items ≡ into.old.items) }
{
    for resource in takes {
        append(into, resource_of(resource).as_slice())?;
    }
    Ok(())
}

// A head and its resources, or nothing.
fn push_start(into: &mut Vec<u8>, head: &[u8], takes: &[Resource]) -> Result<(), NoMemory>
    ensures ok { OnOk result (into.new.items ≡ into.old.items ++ (head.now ++ flat_map resource_bytes takes.now)) }
    ensures err { OnErr result (into.new.items ≡ into.old.items) }
{
    let before = into.len();
    append(into, head)?;
    match push_resources(into, takes) {
        Ok(()) => Ok(()),
        Err(stop) => {
            into.truncate(before);
            Err(stop)
        }
    }
}

/// Adds the bytes of an item at the end. Where memory runs out they are as before.
pub fn encode(item: &Record, into: &mut Vec<u8>) -> Result<(), NoMemory>
    requires { IsTrue (has_form item.now) }
    ensures ok { OnOk result (into.new.items ≡ into.old.items ++ item_bytes item.now) }
    ensures err { OnErr result (into.new.items ≡ into.old.items) }
{
    match item {
        Record::Start {
            session,
            index,
            tran,
            number,
            changes,
            size,
            takes,
        } => {
            let head = start_head(&StartHead {
                session: *session,
                index: *index,
                tran: *tran,
                number: *number,
                changes: *changes,
                size: *size,
                count: takes.count() as u32,
            });
            push_start(into, head.as_slice(), takes.as_slice())
        }
        Record::Change {
            tran,
            cell,
            before,
            after,
        } => {
            let head = change_head(*tran, cell, after.count() as u16);
            append_three(into, head.as_slice(), before.as_slice(), after.as_slice())
        }
        Record::Undo { tran, change } => append(into, undo_bytes(*tran, *change).as_slice()),
        Record::Commit { tran } => append(into, tran_head(4, *tran).as_slice()),
        Record::Abort { tran } => append(into, tran_head(5, *tran).as_slice()),
        Record::Snap { session, index } => {
            append(into, statement_head(6, *session, *index).as_slice())
        }
        Record::Failed {
            session,
            index,
            page,
        } => append(into, failed_bytes(*session, *index, *page).as_slice()),
        Record::CheckEnd {
            session,
            index,
            outcome,
        } => append(into, end_bytes(*session, *index, *outcome).as_slice()),
    }
}
