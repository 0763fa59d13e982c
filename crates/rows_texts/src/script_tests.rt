// Scripts and schedules read, and statements printed.
use crate::expect::expect_named;
use spec_log::Values;
use spec_script::{Name, ScriptWhy, Statement};
use sql_script::{ScriptStop, print_statement, read_schedule, read_script};
use std::alloc::Global;
use std::process::Abort;

fn is_name(name: &Name, wanted: &str) -> bool {
    name.as_str() == wanted
}

#[test]
fn a_name_keeps_its_text(rt: HostRuntime) {
    let name = Name::copied(rt.alloc(), "t_1").expect(&rt, "memory");
    let is_right = is_name(&name, "t_1") && is_name(&Name::empty(rt.alloc()), "");
    assert!(rt; is_right);
}

// What kind of statement it is: the number of a check's workers, or a number of the test's own.
fn kind_of(statement: &Statement) -> u32 {
    match statement {
        Statement::Begin => 100,
        Statement::Insert {
            table,
            key,
            payload,
        } => {
            if is_the_row(table, *key, payload) {
                101
            } else {
                104
            }
        }
        Statement::Count(_) => 102,
        Statement::Select { table, key } => {
            if is_name(table, "t") && *key == 18_446_744_073_709_551_615 {
                105
            } else {
                106
            }
        }
        Statement::CreateHeap(table) => { if is_name(table, "t") { 107 } else { 108 } }
        Statement::Drop(table) => { if is_name(table, "t") { 109 } else { 110 } }
        Statement::Check { workers } => u32::from(*workers),
        _ => 103,
    }
}

// Whether it is the one row that the script inserts.
fn is_the_row(table: &Name, key: u64, payload: &Values<u8>) -> bool {
    is_name(table, "t") && key == 0 && payload.as_slice() == b"it is".as_slice()
}

// A script, and the kinds of its statements.
static SCRIPT: &str =
    "BEGIN\r\n\n-- a note\nINSERT t 0 'it is'\nDBCC CHECKDB\nDBCC CHECKDB WITH MAXDOP = 16\nCOUNT t_1\nSELECT t 18446744073709551615\nCREATE HEAP t\nDROP t";

static KINDS: [u32; 8] = [100, 101, 4, 16, 102, 105, 107, 109];

fn expect_kinds(rt: &impl Abort, alloc: Global, text: &str, wanted: &[u32]) {
    let found = read_script(alloc, text.as_bytes()).expect(rt, "the script is right");
    let is_right = found.len() == wanted.len()
        && found
            .iter()
            .zip(wanted.iter())
            .all(|(statement, kind)| kind_of(statement) == *kind);
    assert!(rt; is_right);
}

#[test]
fn a_script_is_read_line_by_line(rt: HostRuntime) {
    expect_kinds(&rt, rt.alloc(), SCRIPT, &KINDS);
    expect_kinds(&rt, rt.alloc(), "", &[]);
}

static WRONG_SCRIPTS: [(&str, u32); 26] = [
    ("BEGIN\nCOMMIT\nSELEC t 1\nCOUNT\n", 3),
    ("INSERT t 01 'a'", 1),
    ("INSERT t 18446744073709551616 'a'", 1),
    ("INSERT t 1 'it's'", 1),
    ("INSERT T 1 'a'", 1),
    ("COUNT  t", 1),
    ("COUNT t ", 1),
    ("count t", 1),
    ("SELECT t", 1),
    ("SELECT t 01", 1),
    ("SELECT t 1 ", 1),
    ("SELECT  t 1", 1),
    ("SELECT T 1", 1),
    ("SELECT t 18446744073709551616", 1),
    ("CREATE t", 1),
    ("CREATE HEAP", 1),
    ("CREATE HEAP T", 1),
    ("CREATE  HEAP t", 1),
    ("CREATE HEAP t u", 1),
    ("CREATE HEAP abcdefghijklmnopq", 1),
    ("DROP", 1),
    ("DROP HEAP t", 1),
    ("DROP 1t", 1),
    ("BEGIN\r", 1),
    ("DBCC CHECKDB WITH MAXDOP = 0", 1),
    ("DBCC CHECKDB WITH MAXDOP = 17", 1),
];

// A line that no rule of the grammar allows.
fn fault(line: u32) -> Option<ScriptStop> {
    Some(ScriptStop::Fault {
        line,
        why: ScriptWhy::Statement,
    })
}

#[test]
fn the_first_wrong_line_is_named(rt: HostRuntime) {
    for (text, line) in &WRONG_SCRIPTS {
        let stop = read_script(rt.alloc(), text.as_bytes()).err();
        expect_named(&rt, &stop, &fault(*line), text);
    }
}

static TURNS: [(u32, u32); 2] = [(1, 306), (2, 1)];

#[test]
fn a_schedule_names_sessions_and_turns(rt: HostRuntime) {
    let turns = read_schedule(rt.alloc(), b"1 306\n2 1\n", 2).expect(&rt, "it is right");
    let is_right = turns.as_slice() == TURNS.as_slice();
    assert!(rt; is_right);
}

static WRONG_SCHEDULES: [&str; 6] = ["3 1", "0 1", "1 0", "1 10000001", "1  1", "1"];

#[test]
fn a_wrong_schedule_is_told(rt: HostRuntime) {
    for text in &WRONG_SCHEDULES {
        let stop = read_schedule(rt.alloc(), text.as_bytes(), 2).err();
        expect_named(&rt, &stop, &fault(1), text);
    }
}

fn print_row(rt: &impl Abort, alloc: Global, into: &mut Vec<u8>) {
    let row = Statement::Insert {
        table: Name::copied(alloc, "t").expect(rt, "memory"),
        key: 18_446_744_073_709_551_615,
        payload: Values::copied(alloc, b"a b").expect(rt, "memory"),
    };
    print_statement(&row, into).expect(rt, "memory");
}

fn print_select(rt: &impl Abort, alloc: Global, into: &mut Vec<u8>) {
    let select = Statement::Select {
        table: Name::copied(alloc, "abcdefghijklmnop").expect(rt, "memory"),
        key: 18_446_744_073_709_551_615,
    };
    print_statement(&select, into).expect(rt, "memory");
}

fn print_count(rt: &impl Abort, alloc: Global, into: &mut Vec<u8>) {
    let count = Statement::Count(Name::copied(alloc, "v").expect(rt, "memory"));
    print_statement(&count, into).expect(rt, "memory");
}

fn print_tables(rt: &impl Abort, alloc: Global, into: &mut Vec<u8>) {
    let create = Statement::CreateHeap(Name::copied(alloc, "abcdefghijklmnop").expect(
        rt, "memory",
    ));
    print_statement(&create, into).expect(rt, "memory");
    let drop = Statement::Drop(Name::copied(alloc, "t").expect(rt, "memory"));
    print_statement(&drop, into).expect(rt, "memory");
}

static PRINTED: &str =
    "ROLLBACK\nCREATE HEAP abcdefghijklmnop\nDROP t\nINSERT t 18446744073709551615 'a b'\nCOUNT v\nSELECT abcdefghijklmnop 18446744073709551615\nDBCC CHECKDB WITH MAXDOP = 4\n";

#[test]
fn a_statement_is_printed_with_its_end(rt: HostRuntime) {
    let mut text = Vec::new(rt.alloc());
    print_statement(&Statement::Rollback, &mut text).expect(&rt, "memory");
    print_tables(&rt, rt.alloc(), &mut text);
    print_row(&rt, rt.alloc(), &mut text);
    print_count(&rt, rt.alloc(), &mut text);
    print_select(&rt, rt.alloc(), &mut text);
    print_statement(&Statement::Check { workers: 4 }, &mut text).expect(&rt, "memory");
    let is_same = text.as_slice() == PRINTED.as_bytes();
    assert!(rt; is_same);
}
