// Sessions that take turns over one file, and what each holds.
ghost use Rattle.std.specs.Prelude.{◌≡◌, [], ◌∷◌, IfOk, length, map};
ghost use Rattle.spec_start.specs.Sources.{AreProper, AreShort, AreTurnsOf};
ghost use Rattle.spec_file.specs.Places.{HasShape};
ghost use Rattle.spec_log.specs.Cells.{HasWholePages};
ghost use Rattle.spec_run.specs.Openings.{geometry_said};
ghost use Rattle.spec_script.specs.declared.statement.Statement.TheVariants as words;

use crate::made::{heap_page, iam_page, typed};
use db_core::{Core, TurnOut};
use pg_base::Page;
use run_file::{Texts, read_sources};
use spec_check::TableLine;
use spec_file::{ObjId, PageNo, Resource, Tran};
use spec_log::Record;
use spec_script::{Reply, Statement};
use std::alloc::Global;
use std::test::Fail;
use vol_dev::MemSource;
use vol_pool::Frames;

// Heaps `t`, object 1, and `u`, object 2. Their chains begin on pages 8 and 11.
fn boot_page() -> Page {
    let mut page = typed(13, 9, 0);
    page.bytes[96..103].copy_from_slice(&[1, 0, 0, 0, 1, 1, b't']);
    page.bytes[120] = 8;
    page.bytes[136..143].copy_from_slice(&[2, 0, 0, 0, 1, 1, b'u']);
    page.bytes[160] = 11;
    page
}

fn pfs_page() -> Page {
    let mut page = typed(11, 1, 0);
    let bytes = [
        0x44, 0x44, 0x44, 0x44, 0, 0, 0, 0, 0x70, 0x64, 0x60, 0x70, 0x60, 0, 0, 0,
    ];
    page.bytes[96..112].copy_from_slice(&bytes);
    page
}

// Extent 1 is mixed and has free pages.
fn sgam_page() -> Page {
    let mut page = typed(9, 3, 0);
    page.bytes[96] = 2;
    page
}

// A page of a sound file with both heaps, which have the empty pages 10 and 12; or a page of zeros.
fn page_of(p: u32, heaps: bool) -> Page
    ensures { length result.bytes ≡ 8192 }
{
    if !heaps {
        return Page { bytes: [0; 8192] };
    }
    match p {
        1 => pfs_page(),
        2 => typed(8, 2, 0),
        3 => sgam_page(),
        8 => iam_page(8, 1, 10),
        9 => boot_page(),
        10 => heap_page(10, 1),
        11 => iam_page(11, 2, 12),
        12 => heap_page(12, 2),
        _ => Page { bytes: [0; 8192] },
    }
}

// A file of 16 pages with both heaps, or of zeros.
fn file(alloc: Global, heaps: bool) -> Result<Frames, Fail>
    ensures whole { IfOk result HasWholePages }
    ensures shape { IfOk result (λ frames. HasShape (geometry_said frames) (length frames)) }
{
    let mut frames = Frames::empty(alloc);
    for p in 0..16u32 {
        frames.push(Box::new(alloc, page_of(p, heaps))?)?;
    }
    Ok(frames)
}

fn begin_and_commit(alloc: Global) -> Result<Vec<Statement>, Fail>
    ensures { IfOk result (λ script. script.items ≡ words.Begin ∷ words.Commit ∷ []) }
{
    let mut script = Vec::new(alloc);
    script.push(Statement::Begin)?;
    script.push(Statement::Commit)?;
    Ok(script)
}

// A session with a transaction, and one with nothing to do.
fn two_sessions(alloc: Global) -> Result<Core, Fail>
    ensures { IfOk result (λ core. length core.run.scripts ≡ 2) }
{
    let frames = file(alloc, false)?;
    let mut scripts = Vec::new(alloc);
    scripts.push(begin_and_commit(alloc)?)?;
    scripts.push(Vec::new(alloc))?;
    Ok(Core::begin(alloc, frames, scripts)?)
}

#[test]
fn a_core_begins_with_nothing_done(rt: HostRuntime) -> Result<(), Fail> {
    let core = two_sessions(rt.alloc())?;
    let counts = [
        core.items().len(),
        core.frames().count(),
        core.replies(1).len(),
    ];
    assert!(rt; core.sessions() == 2 && counts == [0, 16, 0]);
    Ok(())
}

// The turns of both sessions.
const DONE: [TurnOut; 5] = [
    TurnOut::Answered(1),
    TurnOut::Moved,
    TurnOut::Finished,
    TurnOut::Answered(2),
    TurnOut::Finished,
];

#[test]
fn each_turn_does_one_thing(rt: HostRuntime) -> Result<(), Fail> {
    let mut core = two_sessions(rt.alloc())?;
    let turns = [
        core.turn(1),
        core.turn(1),
        core.turn(2),
        core.turn(1),
        core.turn(1),
    ];
    assert!(rt; turns == DONE);
    let counts = [core.items().len(), core.replies(2).len()];
    let is_done = matches!(core.replies(1), [Reply::Done, Reply::Done]);
    assert!(rt; counts == [3, 0] && is_done);
    Ok(())
}

fn check_alone(alloc: Global) -> Result<Vec<Statement>, Fail>
    ensures { IfOk result (λ script. script.items ≡ words.Check 1 ∷ []) }
{
    let mut script = Vec::new(alloc);
    script.push(Statement::Check { workers: 1 })?;
    Ok(script)
}

// A session that checks the file.
fn one_check(alloc: Global, heaps: bool) -> Result<Core, Fail>
    ensures { IfOk result (λ core. length core.run.scripts ≡ 1) }
{
    let frames = file(alloc, heaps)?;
    let mut scripts = Vec::new(alloc);
    scripts.push(check_alone(alloc)?)?;
    Ok(Core::begin(alloc, frames, scripts)?)
}

// A check of a sound file: its Snap, nothing is left to take back, the maps, each of two extents, the end.
const SOUND: [TurnOut; 7] = [
    TurnOut::Checking,
    TurnOut::Moved,
    TurnOut::Moved,
    TurnOut::Moved,
    TurnOut::Moved,
    TurnOut::Answered(1),
    TurnOut::Finished,
];

#[test]
fn a_check_reads_the_maps_and_each_extent_in_a_turn(rt: HostRuntime) -> Result<(), Fail> {
    let mut core = one_check(rt.alloc(), true)?;
    let turns = [
        core.turn(1),
        core.turn(1),
        core.turn(1),
        core.turn(1),
        core.turn(1),
        core.turn(1),
        core.turn(1),
    ];
    assert!(rt; turns == SOUND);
    assert!(rt; core.items().len() == 2);
    Ok(())
}

// Of zeros no extent is read, since system pages are wrong.
const WRONG: [TurnOut; 5] = [
    TurnOut::Checking,
    TurnOut::Moved,
    TurnOut::Moved,
    TurnOut::Answered(1),
    TurnOut::Finished,
];

#[test]
fn a_check_of_wrong_system_pages_reads_no_extent(rt: HostRuntime) -> Result<(), Fail> {
    let mut core = one_check(rt.alloc(), false)?;
    let turns = [
        core.turn(1),
        core.turn(1),
        core.turn(1),
        core.turn(1),
        core.turn(1),
    ];
    assert!(rt; turns == WRONG);
    Ok(())
}

#[test]
fn a_replay_ends_all_scripts(rt: HostRuntime) -> Result<(), Fail> {
    let mut core = two_sessions(rt.alloc())?;
    core.replay(&[(1, 1), (2, 3)]);
    let is_done = matches!(core.replies(1), [Reply::Done, Reply::Done]);
    assert!(rt; core.items().len() == 3 && is_done);
    assert!(rt; core.turn(1) == TurnOut::Finished);
    Ok(())
}

fn source(alloc: Global, text: &str) -> Result<MemSource, Fail> {
    Ok(MemSource::of(Vec::from_slice(alloc, text.as_bytes())?, None))
}

// A schedule and three scripts.
fn texts_of(alloc: Global, schedule: &str, scripts: [&str; 3]) -> Result<Texts, Fail>
    ensures count { IfOk result (λ texts. length texts.scripts.items ≡ 3) }
    ensures short { IfOk result (λ texts. AreShort (map (λ script. script.items) texts.scripts.items)) }
    ensures proper { IfOk result (λ texts. AreProper (map (λ script. script.items) texts.scripts.items)) }
    ensures inside { IfOk result (λ texts. AreTurnsOf 3 texts.schedule.items) }
{
    let [first, second, third] = scripts;
    let mut sources = vec![in alloc;
        source(alloc, schedule)?,
        source(alloc, first)?,
        source(alloc, second)?,
        source(alloc, third)?,
    ]?;
    match read_sources(alloc, &mut sources) {
        Ok(texts) => Ok(texts),
        Err(_) => Err(Fail::from("the texts are right")),
    }
}

// Three sessions over both heaps, after the turns of a schedule and all others.
fn replayed(alloc: Global, texts: Texts) -> Result<Core, Fail>
    requires count { length texts.scripts.items ≡ 3 }
    requires short { AreShort (map (λ script. script.items) texts.scripts.items) }
    requires proper { AreProper (map (λ script. script.items) texts.scripts.items) }
    requires inside { AreTurnsOf 3 texts.schedule.items }
    ensures { IfOk result (λ core. length core.run.scripts ≡ 3) }
{
    let frames = file(alloc, true)?;
    let Texts { schedule, scripts } = texts;
    let mut core = Core::begin(alloc, frames, scripts)?;
    core.replay(&schedule);
    Ok(core)
}

fn three_sessions(alloc: Global, schedule: &str, scripts: [&str; 3]) -> Result<Core, Fail>
    ensures { IfOk result (λ core. length core.run.scripts ≡ 3) }
{
    let texts = texts_of(alloc, schedule, scripts)?;
    replayed(alloc, texts)
}

// What of a Start the statement's plan decides: the transaction, number, changes and size, and the takes.
fn says(item: Option<&Record>, due: (u64, u16, u32, u64), taken: &[Resource]) -> bool {
    match item {
        Some(
            Record::Start {
                tran,
                number,
                changes,
                size,
                takes,
                ..
            },
        ) => (tran.0, *number, *changes, *size) == due && takes.as_slice() == taken,
        _ => false,
    }
}

// Session 2 inserts seven rows in two transactions, and then session 1 counts them in transaction 3.
#[test]
fn a_count_is_one_item_of_its_transaction(rt: HostRuntime) -> Result<(), Fail> {
    let inserts =
        "BEGIN\nINSERT t 1 'a'\nINSERT t 2 'a'\nINSERT t 3 'a'\nCOMMIT\nBEGIN\nINSERT t 4 'a'\nINSERT t 5 'a'\nINSERT t 6 'a'\nINSERT t 7 'a'\nCOMMIT\n";
    let scripts = ["BEGIN\nCOUNT t\n", inserts, ""];
    let core = three_sessions(rt.alloc(), "2 100\n", scripts)?;
    assert!(rt; says(core.items().last(), (3, 0, 0, 0), &[]));
    assert!(rt; matches!(core.replies(1), [Reply::Done, Reply::Rows { count: 7, .. }]));
    Ok(())
}

// What an INSERT into heap `t` takes.
const TABLE: Resource = Resource::Table(ObjId(1));

const BYTE: Resource = Resource::Byte(PageNo(10));

const PAGE: Resource = Resource::Page(PageNo(10));

// Two rows of 12 bytes go on page 10 in one transaction. A change has 20 bytes and twice its own: the PFS byte, the row,
// a byte of its slot, 5 of the header. By the second row the PFS byte stays, and all that it changes is held.
#[test]
fn what_a_transaction_holds_is_not_taken_again(rt: HostRuntime) -> Result<(), Fail> {
    let scripts = ["BEGIN\nINSERT t 1 'a'\nINSERT t 2 'a'\n", "", ""];
    let core = three_sessions(rt.alloc(), "1 100\n", scripts)?;
    let items = core.items();
    assert!(rt; items.len() == 10);
    assert!(rt; says(items.get(1), (1, 0, 4, 118), &[TABLE, BYTE, PAGE]));
    assert!(rt; says(items.get(6), (1, 0, 3, 96), &[]));
    Ok(())
}

// Four rows of 1,024 bytes, the longest that there are, for the keys 3 to 6.
fn long_rows(alloc: Global) -> Result<String, Fail> {
    let mut text = String::new(alloc);
    for key in ["3", "4", "5", "6"] {
        text.push_str("INSERT t ")?;
        text.push_str(key)?;
        text.push_str(" '")?;
        push_payload(&mut text)?;
        text.push_str("'\n")?;
    }
    Ok(text)
}

fn push_payload(text: &mut String) -> Result<(), Fail> {
    for _ in 0..1013 {
        text.push('a')?;
    }
    Ok(())
}

// Transaction 1 leaves a row of 12 bytes, so that the PFS byte stays until page 10 is more than half full. Each row
// has a slot of two bytes: before the last row 3,106 of 8,096 bytes are in use, behind it 4,132. It changes the PFS byte,
// 1,024 bytes of the row, both of its slot (3,192) and 6 of the header, and of these transaction 2 holds all but the byte.
#[test]
fn what_a_transaction_does_not_hold_yet_is_taken(rt: HostRuntime) -> Result<(), Fail> {
    let alloc = rt.alloc();
    let mut inserts = String::from_str(alloc, "INSERT t 1 'a'\nBEGIN\nINSERT t 2 'a'\n")?;
    inserts.push_str(&long_rows(alloc)?)?;
    let core = three_sessions(alloc, "1 100\n", [&inserts, "", ""])?;
    let items = core.items();
    assert!(rt; items.len() == 28);
    assert!(rt; says(items.get(7), (2, 0, 3, 96), &[TABLE, PAGE]));
    assert!(rt; says(items.get(23), (2, 0, 4, 2_146), &[BYTE]));
    Ok(())
}

// The turns of each session, in which transaction 5 of the first takes table 1, and 3 of the third table 2: the second
// has ended transactions 1, 2 and 4 before. A first row has four changes, for its PFS byte too, and a later one three.
const TURNS: &str = "2 12\n3 5\n2 5\n1 5\n2 2\n1 5\n3 4\n";

const FIRST: &str = "BEGIN\nINSERT t 3 'a'\nINSERT u 9 'a'\nINSERT t 4 'a'\n";

const SECOND: &str =
    "INSERT u 1 'a'\nINSERT t 1 'a'\nINSERT t 2 'a'\nINSERT t 9 'a'\nINSERT u 9 'a'\nDBCC CHECKDB\n";

const THIRD: &str = "BEGIN\nINSERT u 2 'a'\nINSERT u 3 'a'\n";

// Whether a statement is refused since a transaction holds the table.
fn is_held(reply: Option<&Reply>, table: u32, by: u64) -> bool {
    match reply {
        Some(Reply::Refused(refusal)) => {
            refusal.number == 1222
                && refusal.resource == Some(Resource::Table(ObjId(table)))
                && refusal.by == Tran(by)
        }
        _ => false,
    }
}

fn is_one_row(reply: Option<&Reply>) -> bool {
    matches!(reply, Some(Reply::Rows { count: 1, .. }))
}

// Those of no transaction meet both, that with transaction 5 only table 2.
fn are_held(first: &[Reply], second: &[Reply]) -> bool {
    is_held(second.get(3), 1, 5) && is_held(second.get(4), 2, 3) && is_held(first.get(2), 2, 3)
}

// What a session holds itself, what it held in a transaction that has ended, and the catalog, which nobody holds,
// are in nobody's way.
fn are_rows(first: &[Reply], third: &[Reply]) -> bool {
    is_one_row(first.get(1))
        && is_one_row(first.get(3))
        && is_one_row(third.get(1))
        && is_one_row(third.get(2))
}

#[test]
fn another_holder_is_told_and_a_session_meets_none_of_its_own(rt: HostRuntime) -> Result<(), Fail> {
    let core = three_sessions(rt.alloc(), TURNS, [FIRST, SECOND, THIRD])?;
    let (first, second, third) = (core.replies(1), core.replies(2), core.replies(3));
    assert!(rt; first.len() == 4 && second.len() == 6 && third.len() == 3);
    assert!(rt; are_held(first, second) && are_rows(first, third));
    let are_own = is_one_row(second.get(0))
        && is_one_row(second.get(1))
        && is_one_row(second.get(2));
    assert!(rt; are_own);
    Ok(())
}

fn line(object: u32, rows: u64) -> TableLine {
    TableLine {
        object,
        rows,
        pages: 1,
    }
}

// Transactions 5 and 3 are open, and the session of the check has none.
#[test]
fn a_check_takes_back_all_open_transactions(rt: HostRuntime) -> Result<(), Fail> {
    let core = three_sessions(rt.alloc(), TURNS, [FIRST, SECOND, THIRD])?;
    let Some(Reply::Report { report, .. }) = core.replies(2).last() else {
        panic!(rt; "the check has a report");
    };
    assert!(rt; report.errors.is_empty());
    assert_eq!(rt; report.tables.as_slice(), &[line(1, 2), line(2, 1)][..]);
    Ok(())
}
