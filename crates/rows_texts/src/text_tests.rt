// The text of reports, replies and pages, and which errors a report counts as allocation errors.
use crate::expect::expect_named;
use ck_text::{write_page, write_reply};
use pg_base::{ExtentNo, Header, Lsn, ObjId, Page, PageNo, Resource, Tran, write_header};
use run_close::write_session;
use spec_check::{CheckError, CheckReport, TableLine};
use spec_log::Values;
use spec_script::{Cause, Name, Refusal, Reply};
use sqlite_items::Items;
use std::alloc::Global;
use std::process::Abort;
use vol_dev::MemSink;

fn numbered(number: u32) -> CheckError {
    CheckError {
        number,
        object: 0,
        page: 0,
        other: 0,
        slot: 0,
        value: 0,
    }
}

static OF_MAPS_AND_CHAINS: [u32; 17] = [
    8946, 8998, 8903, 8904, 8905, 8906, 8910, 8913, 8948, 8914, 2579, 8968, 2575, 8959, 8969, 2577,
    8947,
];

static OF_PAGES: [u32; 10] = [8909, 8938, 2534, 8939, 8941, 8942, 8943, 2511, 8928, 8937];

fn expect_allocation(rt: &impl Abort, numbers: &[u32], wanted: bool) {
    let is_right = numbers
        .iter()
        .all(|number| numbered(*number).is_allocation() == wanted);
    assert!(rt; is_right);
}

#[test]
fn rules_of_maps_and_chains_are_allocation_errors(rt: HostRuntime) {
    expect_allocation(&rt, &OF_MAPS_AND_CHAINS, true);
    expect_allocation(&rt, &OF_PAGES, false);
}

fn expect_text(rt: &impl Abort, out: MemSink, wanted: &str) {
    let text = out.into_bytes();
    let is_same = text.as_slice() == wanted.as_bytes();
    expect_named(rt, &is_same, &true, wanted);
}

// The text of the reply to statement 3 of session 2.
fn expect_reply(rt: &impl Abort, alloc: Global, reply: &Reply, wanted: &str) {
    let mut out = MemSink::of(alloc, None);
    let is_written = write_reply(2, 3, reply, &mut out).is_ok();
    assert!(rt; is_written);
    expect_text(rt, out, wanted);
}

fn expect_refusal(rt: &impl Abort, alloc: Global, refusal: Refusal, wanted: &str) {
    expect_reply(rt, alloc, &Reply::Refused(refusal), wanted);
}

fn held(rt: &impl Abort, alloc: Global) -> Refusal {
    let mut refusal = Refusal::plain(alloc, 1222);
    refusal.resource = Some(Resource::Extent(ExtentNo(2)));
    refusal.by = Tran(38);
    refusal
}

fn of_t(rt: &impl Abort, alloc: Global, number: u16) -> Refusal {
    let mut refusal = Refusal::plain(alloc, number);
    refusal.name = Name::copied(alloc, "t").expect(rt, "memory");
    refusal
}

fn twice(rt: &impl Abort, alloc: Global) -> Refusal {
    let mut refusal = Refusal::plain(alloc, 2627);
    refusal.key = 1;
    refusal
}

fn bad(rt: &impl Abort, alloc: Global) -> Refusal {
    let mut refusal = Refusal::plain(alloc, 824);
    refusal.page = PageNo(11);
    refusal
}

#[test]
fn refusals_say_what_was_in_the_way(rt: HostRuntime) {
    expect_refusal(
        &rt,
        rt.alloc(),
        held(&rt, rt.alloc()),
        "2.3 MSG 1222 EXTENT 2 TRAN 38\n",
    );
    expect_refusal(
        &rt,
        rt.alloc(),
        of_t(&rt, rt.alloc(), 208),
        "2.3 MSG 208 t\n",
    );
    expect_refusal(
        &rt,
        rt.alloc(),
        of_t(&rt, rt.alloc(), 2714),
        "2.3 MSG 2714 t\n",
    );
    expect_refusal(&rt, rt.alloc(), twice(&rt, rt.alloc()), "2.3 MSG 2627 1\n");
    expect_refusal(
        &rt,
        rt.alloc(),
        bad(&rt, rt.alloc()),
        "2.3 MSG 824 PAGE 11\n",
    );
    expect_refusal(
        &rt,
        rt.alloc(),
        Refusal::plain(rt.alloc(), 1105),
        "2.3 MSG 1105\n",
    );
    expect_refusal(
        &rt,
        rt.alloc(),
        Refusal::plain(rt.alloc(), 60002),
        "2.3 MSG 60002\n",
    );
}

static ENDED: &str = "2.3 MSG 8921 DAMAGED PAGE 10\n";

#[test]
fn a_refusal_alone_and_an_end_are_written(rt: HostRuntime) {
    expect_reply(
        &rt,
        rt.alloc(),
        &Reply::Terminated(Cause::Damaged(PageNo(10))),
        ENDED,
    );
    expect_reply(&rt, rt.alloc(), &Reply::Done, "2.3 OK\n");
}

fn add_payload(rt: &impl Abort, alloc: Global, payloads: &mut Values<Values<u8>>, bytes: &[u8]) {
    let payload = Values::copied(alloc, bytes).expect(rt, "memory");
    payloads.push(payload).expect(rt, "memory");
}

static TWO_ROWS: &str = "2.3 ROWS 2\n  'a b'\n  '\\27\\5c\\0a\\ff~'\n";

#[test]
fn rows_show_their_payloads(rt: HostRuntime) {
    let mut payloads = Values::new(rt.alloc());
    add_payload(&rt, rt.alloc(), &mut payloads, b"a b");
    add_payload(
        &rt,
        rt.alloc(),
        &mut payloads,
        &[0x27, 0x5c, 0x0a, 0xff, 0x7e],
    );
    expect_reply(
        &rt,
        rt.alloc(),
        &Reply::Rows { count: 2, payloads },
        TWO_ROWS,
    );
}

static ERROR: CheckError = CheckError {
    number: 8905,
    object: 0,
    page: 24,
    other: 0,
    slot: 0,
    value: 0,
};

static LINE: TableLine = TableLine {
    object: 1,
    rows: 56,
    pages: 8,
};

fn report(rt: &impl Abort, alloc: Global) -> CheckReport {
    let mut errors = Items::new(alloc);
    errors.push(ERROR).expect(rt, "memory");
    let mut tables = Items::new(alloc);
    tables.push(LINE).expect(rt, "memory");
    CheckReport { errors, tables }
}

static REPORT: &str =
    "2.3 DBCC LSN 307\nMsg 8905: object 0, page 24, other 0, slot 0, value 0\nMsg 2593: object 1, rows 56, pages 8\nMsg 8989: 1 allocation errors, 0 consistency errors\n";

#[test]
fn a_report_stands_behind_its_number(rt: HostRuntime) {
    let reply = Reply::Report {
        lsn: Lsn(307),
        report: report(&rt, rt.alloc()),
    };
    expect_reply(&rt, rt.alloc(), &reply, REPORT);
}

static HEADER: Header = Header {
    page_type: 1,
    level: 0,
    page_id: PageNo(10),
    object: ObjId(1),
    prev: PageNo(0),
    next: PageNo(0),
    slots: 1,
    free_count: 8082,
    free_from: 108,
    ghosts: 0,
};

static SHOWN_PAGE: &str =
    "page 10\ntype 1 level 0 object 1\nprev 0 next 0\nslots 1 free 8082 freedata 108 ghosts 0\nslot 0 offset 96\n";

// A heap page whose one row stands right behind the header.
#[test]
fn a_page_shows_its_header_and_slots(rt: HostRuntime) {
    let mut page = Page::zeroed(rt.alloc()).expect(&rt, "memory");
    write_header(&mut page, &HEADER);
    page.bytes[8190] = 96;
    let mut out = MemSink::of(rt.alloc(), None);
    let is_written = write_page(&page, PageNo(10), &mut out).is_ok();
    assert!(rt; is_written);
    expect_text(&rt, out, SHOWN_PAGE);
}

#[test]
fn the_replies_of_a_session_are_written(rt: HostRuntime) {
    let rows = Reply::Rows {
        count: 1,
        payloads: Values::new(rt.alloc()),
    };
    let replies = vec![in rt.alloc(); Reply::Done, rows].expect(&rt, "memory");
    let mut out = MemSink::of(rt.alloc(), None);
    let is_written = write_session(3, &replies, &mut out).is_ok();
    assert!(rt; is_written);
    expect_text(&rt, out, "3.1 OK\n3.2 ROWS 1\n");
}
