// Each statement that is planned, by the crate that carries it out.
ghost use Rattle.std.specs.Prelude.{◌≡◌, ◌≤◌, [], true, length, IfOk, IsTrue};
ghost use Rattle.spec_script.specs.declared.reply.Reply.TheVariants as reply;
ghost use Rattle.spec_file.specs.declared.sizes.TheConstants.{PAYLOAD_LIMIT};
ghost use Rattle.spec_script.specs.Lines.{is_statement};
ghost use Rattle.spec_script.specs.declared.reply.Reply.{Reply as AnyReply};
ghost use Rattle.spec_words.specs.Heaps as spec;
ghost use Rattle.spec_statements.specs.Objects as objects;
ghost use Rattle.spec_statements.specs.Statements.{Plans, kind_of};
ghost use Rattle.spec_words.specs.Views.{Plan as Words};
ghost use Rattle.spec_words.specs.Takes.{takes_at, changes_at};
ghost use Rattle.db_plan.specs.Plans.{IsPlannedAs, IsLimited, WritesBy, is_planned};

use crate::limits::{exceeds, planned_bytes};
use crate::refusals::{of_create, of_find, of_insert, out_of_memory};
use crate::{Plan, PlanAt};
use db_heap::{heap_count, heap_insert, heap_select};
use db_locks::PlanPages;
use db_table::{create_heap, drop_table};
use net_changes::{net_changes, net_takes};
use spec_file::{NoMemory, Resource};
use spec_log::Values;
use spec_plan::Planned;
use spec_script::{LOG_FULL, Name, Refusal, Reply, Statement};
use std::alloc::Global;

// So many rows were counted or written.
fn rows(alloc: Global, count: u64) -> Reply
    ensures { result ≡ reply.Rows count [] }
{
    Reply::Rows {
        count,
        payloads: Values::new(alloc),
    }
}

// These rows were found.
fn found_rows(payloads: Values<Values<u8>>) -> Reply
    ensures { result ≡ spec.rows_found payloads }
{
    Reply::Rows {
        count: payloads.count() as u64,
        payloads,
    }
}

// The plan of a statement that was carried out on the view, or the refusal of one that passes a limit of the log.
fn limited(
    alloc: Global,
    at: &PlanAt,
    reply: Reply,
    takes: Vec<Resource>,
    changes: Vec<Planned>,
) -> Result<Plan, Refusal>
    ensures { IsLimited at.now reply takes.items changes.items result }
{
    if exceeds(at, changes.len() as u64, planned_bytes(&changes)) {
        return Err(Refusal::plain(alloc, LOG_FULL));
    }
    Ok(Plan::Written {
        reply,
        takes: Values::from_vec(takes),
        changes,
    })
}

// What a statement that was carried out on the view takes and changes.
fn found<P: PlanPages>(
    alloc: Global,
    v: &P,
    at: &PlanAt,
) -> Result<(Vec<Resource>, Vec<Planned>), NoMemory>
    requires geometry { at.now.geometry ≡ (P.state v.now).view.shape.geometry }
    requires pages { at.now.pages ≡ (P.state v.now).view.shape.pages }
    ensures { IfOk result (λ found. IsTrue (P.state v.now).told → (found.0.items ≡ takes_at (P.state v.now).view) × (found.1.items ≡ changes_at (P.state v.now).view)) }
{
    Ok((
        net_takes(alloc, v, at.geometry, at.pages)?,
        net_changes(alloc, v, at.geometry, at.pages)?,
    ))
}

// The plan of a statement that was carried out on the view.
fn written<P: PlanPages>(alloc: Global, v: &P, at: &PlanAt, reply: Reply) -> Result<Plan, Refusal>
    requires geometry { at.now.geometry ≡ (P.state v.now).view.shape.geometry }
    requires pages { at.now.pages ≡ (P.state v.now).view.shape.pages }
    ensures { WritesBy at.now (P.state v.now) reply result }
{
    match found(alloc, v, at) {
        Ok((takes, changes)) => limited(alloc, at, reply, takes, changes),
        Err(NoMemory) => Err(out_of_memory(alloc)),
    }
}

// CREATE HEAP.
fn plan_create<P: PlanPages>(
    alloc: Global,
    v: &mut P,
    at: &PlanAt,
    table: &Name,
) -> Result<Plan, Refusal>
    requires geometry { at.now.geometry ≡ (P.state v.old).view.shape.geometry }
    requires pages { at.now.pages ≡ (P.state v.old).view.shape.pages }
    requires name { length table.now ≤ 16 }
    ensures { IsPlannedAs at.now (P.state v.old) (P.state v.new) (objects.create_plan (P.state v.old).view.shape table.now) result }
{
    match create_heap(alloc, v, at.geometry, at.pages, table) {
        Ok(()) => written(alloc, v, at, Reply::Done),
        Err(stop) => Err(of_create(alloc, stop, table)),
    }
}

// DROP.
fn plan_drop<P: PlanPages>(
    alloc: Global,
    v: &mut P,
    at: &PlanAt,
    table: &Name,
) -> Result<Plan, Refusal>
    requires geometry { at.now.geometry ≡ (P.state v.old).view.shape.geometry }
    requires pages { at.now.pages ≡ (P.state v.old).view.shape.pages }
    ensures { IsPlannedAs at.now (P.state v.old) (P.state v.new) (objects.drop_plan (P.state v.old).view.shape table.now) result }
{
    match drop_table(alloc, v, at.geometry, at.pages, table) {
        Ok(()) => written(alloc, v, at, Reply::Done),
        Err(stop) => Err(of_find(alloc, stop, table)),
    }
}

// INSERT.
fn plan_insert<P: PlanPages>(
    alloc: Global,
    v: &mut P,
    at: &PlanAt,
    table: &Name,
    key: u64,
    payload: &[u8],
) -> Result<Plan, Refusal>
    requires geometry { at.now.geometry ≡ (P.state v.old).view.shape.geometry }
    requires pages { at.now.pages ≡ (P.state v.old).view.shape.pages }
    requires payload { length payload.now ≤ PAYLOAD_LIMIT }
    ensures { IsPlannedAs at.now (P.state v.old) (P.state v.new) (spec.insert_plan (P.state v.old).view.shape table.now key payload.now) result }
{
    match heap_insert(alloc, v, at.geometry, at.pages, table, key, payload) {
        Ok(()) => written(alloc, v, at, rows(alloc, 1)),
        Err(stop) => Err(of_insert(alloc, stop, table)),
    }
}

// COUNT.
fn plan_count<P: PlanPages>(
    alloc: Global,
    v: &mut P,
    at: &PlanAt,
    table: &Name,
) -> Result<Plan, Refusal>
    requires geometry { at.now.geometry ≡ (P.state v.old).view.shape.geometry }
    requires pages { at.now.pages ≡ (P.state v.old).view.shape.pages }
    requires begins { (P.state v.old).view.taken ≡ [] }
    ensures { IsPlannedAs at.now (P.state v.old) (P.state v.new) (spec.count_plan (P.state v.old).view.shape table.now) result }
{
    match heap_count(alloc, v, at.geometry, at.pages, table) {
        Ok(count) => Ok(Plan::Read(rows(alloc, count))),
        Err(stop) => Err(of_find(alloc, stop, table)),
    }
}

// SELECT.
fn plan_select<P: PlanPages>(
    alloc: Global,
    v: &mut P,
    at: &PlanAt,
    table: &Name,
    key: u64,
) -> Result<Plan, Refusal>
    requires geometry { at.now.geometry ≡ (P.state v.old).view.shape.geometry }
    requires pages { at.now.pages ≡ (P.state v.old).view.shape.pages }
    requires begins { (P.state v.old).view.taken ≡ [] }
    ensures { IsPlannedAs at.now (P.state v.old) (P.state v.new) (spec.select_plan (P.state v.old).view.shape table.now key) result }
{
    match heap_select(alloc, v, at.geometry, at.pages, table, key) {
        Ok(payloads) => Ok(Plan::Read(found_rows(payloads))),
        Err(stop) => Err(of_find(alloc, stop, table)),
    }
}

/// Plans a statement on a view where nothing is taken yet: its words are carried out there, and its takes and changes
/// are those of the view as it then stands. Its refusal is the first that its words meet; 9002 where its changes pass a
/// limit; 823 where the device failed at a page that they reach; 701.
pub fn plan<P: PlanPages>(
    alloc: Global,
    s: &Statement,
    v: &mut P,
    at: &PlanAt,
) -> Result<Plan, Refusal>
    requires geometry { at.now.geometry ≡ (P.state v.old).view.shape.geometry }
    requires pages { at.now.pages ≡ (P.state v.old).view.shape.pages }
    requires begins { (P.state v.old).view.taken ≡ [] }
    requires proper { is_statement s.now ≡ true }
    requires planned { is_planned s.now ≡ true }
    ensures { (words : Words AnyReply) → kind_of (P.state v.old).view.shape s.now ≡ Plans words → IsPlannedAs at.now (P.state v.old) (P.state v.new) words result }
{
    match s {
        Statement::CreateHeap(table) => plan_create(alloc, v, at, table),
        Statement::Drop(table) => plan_drop(alloc, v, at, table),
        Statement::Insert {
            table,
            key,
            payload,
        } => plan_insert(alloc, v, at, table, *key, payload.as_slice()),
        Statement::Count(table) => plan_count(alloc, v, at, table),
        Statement::Select { table, key } => plan_select(alloc, v, at, table, *key),
        _ => unreachable!(),
    }
}
