// CREATE HEAP over a catalog of 128 heaps, and where the log is full.
use crate::changes::{Change, are_changes};
use crate::made::pages_of;
use crate::plan_tests::{Due, NOTHING, Used, is_due, planned_over};
use crate::table_tests::creating;
use db_plan::Plan;
use pg_base::{Geometry, Page};
use spec_script::{Refusal, Reply};
use std::alloc::Global;
use std::test::Fail;

// Heaps with the ids 1 to 128 and names of two letters, each in the entry of its number less 1.
fn fill_entries(page: &mut Page) {
    for i in 0..128usize {
        let at = 96 + 40 * i;
        page.bytes[at] = i as u8 + 1;
        page.bytes[at + 4] = 1;
        page.bytes[at + 5] = 2;
        page.bytes[at + 6] = b'a' + (i / 16) as u8;
        page.bytes[at + 7] = b'a' + (i % 16) as u8;
        page.bytes[at + 24] = 8;
    }
}

// The heap of the last entry is named t.
fn name_last(page: &mut Page) {
    page.bytes[5181] = 1;
    page.bytes[5182] = b't';
    page.bytes[5183] = 0;
}

// Entry 60, of id 61, is empty.
fn empty_one(page: &mut Page) {
    for i in 0..40usize {
        page.bytes[2496 + i] = 0;
    }
}

fn full(alloc: Global, last: bool, one: bool) -> Result<Vec<Page>, Fail> {
    let mut pages = pages_of(alloc, &[])?;
    if let Some(page) = pages.get_mut(9) {
        fill_entries(page);
        if last {
            name_last(page);
        }
        if one {
            empty_one(page);
        }
    }
    Ok(pages)
}

fn refused(number: u16, name: &'static str) -> Due {
    Due {
        number,
        name,
        page: 0,
        resource: None,
        by: 0,
    }
}

fn created_over(
    alloc: Global,
    pages: Vec<Page>,
    used: Used,
) -> Result<Result<Plan, Refusal>, Fail> {
    planned_over(alloc, Geometry::Small, &creating(alloc)?, pages, &[], used)
}

#[test]
fn there_are_128_tables_and_a_name_is_told_before(rt: HostRuntime) -> Result<(), Fail> {
    let alloc = rt.alloc();
    let found = created_over(alloc, full(alloc, false, false)?, NOTHING)?;
    assert!(rt; is_due(&found, &refused(60002, "")));
    let found = created_over(alloc, full(alloc, true, false)?, NOTHING)?;
    assert!(rt; is_due(&found, &refused(2714, "t")));
    Ok(())
}

static LAST: [Change; 3] = [
    Change::Cell(1, 104, &[0], &[0x70]),
    Change::Cell(8, 0, &[0; 9], &[1, 10, 0, 0, 8, 0, 0, 0, 61]),
    Change::Cell(
        9,
        2496,
        &[0; 25],
        &[
            61, 0, 0, 0, 1, 1, b't', 0, 0, 0, 0, 0, 0, 0, 0, 0, 0, 0, 0, 0, 0, 0, 0, 0, 8,
        ],
    ),
];

fn is_last(found: &Result<Plan, Refusal>) -> bool {
    match found {
        Ok(
            Plan::Written {
                reply: Reply::Done,
                takes,
                changes,
            },
        ) => takes.count() == 5 && are_changes(changes, &LAST),
        _ => false,
    }
}

#[test]
fn the_last_place_is_given(rt: HostRuntime) -> Result<(), Fail> {
    let alloc = rt.alloc();
    let found = created_over(alloc, full(alloc, false, true)?, NOTHING)?;
    assert!(rt; is_last(&found));
    Ok(())
}

// A table that comes has three changes, of which a transaction has at most 8,192.
#[test]
fn a_table_that_passes_a_limit_of_the_log_is_refused(rt: HostRuntime) -> Result<(), Fail> {
    let alloc = rt.alloc();
    let found = created_over(alloc, full(alloc, false, true)?, (8_189, 0, 0))?;
    assert!(rt; is_last(&found));
    let found = created_over(alloc, full(alloc, false, true)?, (8_190, 0, 0))?;
    assert!(rt; is_due(&found, &refused(9002, "")));
    Ok(())
}
