// The bytes of replies.
ghost use Rattle.std.specs.Prelude.{◌≡◌, ◌+◌, ◌≤◌, ◌++◌, flat_map, codes, decimal, false, is_err};
ghost use Rattle.arrayvec.specs.ArrayString.{array_string_len};
ghost use Rattle.vol_dev.specs.Output.{Wrote};
ghost use Rattle.spec_check.specs.Text.{report_text};
ghost use Rattle.spec_script.specs.Replies as spec;

use crate::line::{Line, push_field, push_number, write_bytes, write_line};
use crate::payload::write_payloads;
use crate::report::write_report;
use pg_base::{Lsn, Resource, Tran};
use spec_check::CheckReport;
use spec_log::Values;
use spec_script::{
    BAD_PAGE, Cause, HELD, NO_TABLE, READ_FAULT, Refusal, Reply, SAME_KEY, SAME_NAME,
};
use vol_dev::{DeviceFailed, Sink};

#[tactic(auto, unfolding(spec_script::specs::Replies::place_of_reply))]
fn place_of(session: u32, index: u32) -> Line
    ensures { result.bytes ≡ spec.place_of_reply session index }
{
    let mut line = Line::new();
    push_number(&mut line, u64::from(session));
    push_field(&mut line, ".", u64::from(index));
    line.push_str(" ");
    line
}

#[tactic(auto, unfolding(spec_script::specs::Replies::rows_line))]
fn rows_text(count: u64) -> Line
    ensures { result.bytes ≡ spec.rows_line count }
{
    let mut line = Line::new();
    push_field(&mut line, "ROWS ", count);
    line.push_str("\n");
    line
}

#[tactic(auto, unfolding(spec_script::specs::Replies::lsn_line))]
fn lsn_text(lsn: Lsn) -> Line
    ensures { result.bytes ≡ spec.lsn_line lsn.0 }
{
    let mut line = Line::new();
    push_field(&mut line, "DBCC LSN ", lsn.0);
    line.push_str("\n");
    line
}

#[tactic(auto, unfolding(spec_script::specs::Replies::cause_line))]
fn cause_text(cause: Cause) -> Line
    ensures { result.bytes ≡ spec.cause_line cause }
{
    let mut line = Line::new();
    match cause {
        Cause::Fault(page) => push_field(&mut line, "MSG 8921 FAULT PAGE ", u64::from(page.0)),
        Cause::Damaged(page) => push_field(&mut line, "MSG 8921 DAMAGED PAGE ", u64::from(page.0)),
    }
    line.push_str("\n");
    line
}

fn push_resource(line: &mut Line, resource: Resource)
    requires { array_string_len line.old + 30 ≤ 320 }
    ensures bytes { line.new.bytes ≡ line.old.bytes ++ spec.resource_text resource }
    ensures len { array_string_len line.new ≤ array_string_len line.old + 30 }
{
    match resource {
        Resource::Catalog => line.push_str("CATALOG"),
        Resource::Table(object) => push_field(line, "TABLE ", u64::from(object.0)),
        Resource::Extent(extent) => push_field(line, "EXTENT ", u64::from(extent.0)),
        Resource::Byte(page) => push_field(line, "BYTE ", u64::from(page.0)),
        Resource::Page(page) => push_field(line, "PAGE ", u64::from(page.0)),
    }
}

fn push_holder(line: &mut Line, resource: Option<Resource>, by: Tran)
    requires { array_string_len line.old + 60 ≤ 320 }
    ensures bytes { line.new.bytes ≡ line.old.bytes ++ spec.holder_text resource by.0 }
    ensures len { array_string_len line.new ≤ array_string_len line.old + 60 }
{
    if let Some(resource) = resource {
        line.push_str(" ");
        push_resource(line, resource);
        push_field(line, " TRAN ", by.0);
    }
}

fn push_place(line: &mut Line, refusal: &Refusal)
    requires { array_string_len line.old + 60 ≤ 320 }
    ensures bytes { line.new.bytes ≡ line.old.bytes ++ spec.place_text refusal.now }
    ensures len { array_string_len line.new ≤ array_string_len line.old + 60 }
{
    match refusal.number {
        SAME_KEY => push_field(line, " ", refusal.key),
        HELD => push_holder(line, refusal.resource, refusal.by),
        READ_FAULT | BAD_PAGE => push_field(line, " PAGE ", u64::from(refusal.page.0)),
        _ => {}
    }
}

fn names_object(number: u16) -> bool
    ensures { result ≡ spec.is_named number }
{
    number == NO_TABLE || number == SAME_NAME
}

#[tactic(auto, unfolding(spec_script::specs::Replies::refusal_line))]
fn refusal_text(refusal: &Refusal) -> Line
    requires { spec.is_named refusal.now.number ≡ false }
    ensures { result.bytes ≡ spec.refusal_line refusal.now }
{
    let mut line = Line::new();
    push_field(&mut line, "MSG ", u64::from(refusal.number));
    push_place(&mut line, refusal);
    line.push_str("\n");
    line
}

fn number_text(number: u16) -> Line
    ensures { result.bytes ≡ codes "MSG " ++ decimal number ++ codes " " }
{
    let mut line = Line::new();
    push_field(&mut line, "MSG ", u64::from(number));
    line.push_str(" ");
    line
}

// A number and the name of an object.
fn write_named<K: Sink>(number: u16, name: &str, out: &mut K) -> Result<(), DeviceFailed>
    ensures { Wrote K.Sink out.old out.new (codes "MSG " ++ decimal number ++ codes " " ++ name.now ++ codes "\n") (is_err result) }
{
    write_line(&number_text(number), out)?;
    write_bytes(name.as_bytes(), out)?;
    write_bytes(b"\n", out)
}

fn write_refusal<K: Sink>(refusal: &Refusal, out: &mut K) -> Result<(), DeviceFailed>
    ensures { Wrote K.Sink out.old out.new (spec.refusal_line refusal.now) (is_err result) }
{
    if names_object(refusal.number) {
        write_named(refusal.number, refusal.name.as_str(), out)
    } else {
        write_line(&refusal_text(refusal), out)
    }
}

fn write_rows<K: Sink>(count: u64, payloads: &[Values<u8>], out: &mut K) -> Result<(), DeviceFailed>
    ensures { Wrote K.Sink out.old out.new (spec.rows_line count ++ flat_map spec.payload_line payloads.now) (is_err result) }
{
    write_line(&rows_text(count), out)?;
    write_payloads(payloads, out)
}

fn write_checked<K: Sink>(lsn: Lsn, report: &CheckReport, out: &mut K) -> Result<(), DeviceFailed>
    ensures { Wrote K.Sink out.old out.new (spec.lsn_line lsn.0 ++ report_text report.now) (is_err result) }
{
    write_line(&lsn_text(lsn), out)?;
    write_report(report, out)
}

fn write_answer<K: Sink>(reply: &Reply, out: &mut K) -> Result<(), DeviceFailed>
    ensures { Wrote K.Sink out.old out.new (spec.answer_text reply.now) (is_err result) }
{
    match reply {
        Reply::Done => write_bytes(b"OK\n", out),
        Reply::Rows { count, payloads } => write_rows(*count, payloads.as_slice(), out),
        Reply::Report { lsn, report } => write_checked(*lsn, report, out),
        Reply::Terminated(cause) => write_line(&cause_text(*cause), out),
        Reply::Refused(refusal) => write_refusal(refusal, out),
    }
}

/// Writes the reply to a statement of a session, both counted from 1. After a failure of the sink a
/// front of its bytes stands there.
pub fn write_reply<K: Sink>(
    session: u32,
    index: u32,
    reply: &Reply,
    out: &mut K,
) -> Result<(), DeviceFailed>
    ensures { Wrote K.Sink out.old out.new (spec.reply_text session index reply.now) (is_err result) }
{
    write_line(&place_of(session, index), out)?;
    write_answer(reply, out)
}
