// Worked rows of `check` and `page`: a file, what is run over it, and what that gives.
use crate::pieces::{New, Piece, made};
use crate::still::{check, differs, joined, reads_that_fail, run};
use checkdb_top::Status;
use std::alloc::{AllocError, Global};
use std::test::Fail;

/// A check: of a file, the errors that its report tells, and the lines behind these.
pub struct Row {
    pub name: &'static str,
    pub new: New,
    pub parts: &'static [&'static [Piece]],
    pub errors: &'static [&'static str],
    pub lines: &'static [&'static str],
}

/// A command: its words, over a file of which this page can't be read the first time and an output whose call
/// of this number fails; how it ends, and what it writes.
pub struct Run {
    pub name: &'static str,
    pub words: &'static [&'static str],
    pub new: New,
    pub parts: &'static [&'static [Piece]],
    pub unread: Option<u32>,
    pub unwritten: Option<u32>,
    pub status: Status,
    pub lines: &'static [&'static str],
}

fn status_of(row: &Row) -> Status {
    if row.errors.is_empty() {
        Status::Clean
    } else {
        Status::Errors
    }
}

// The report of a row, as text.
fn report_of(alloc: Global, row: &Row) -> Result<Vec<u8>, AllocError> {
    let mut text = joined(alloc, row.errors)?;
    for line in row.lines {
        text.extend_from_slice(line.as_bytes())?;
    }
    Ok(text)
}

fn expect_row(alloc: Global, row: &Row) -> Result<(), Fail> {
    let (status, found) = check(alloc, made(alloc, row.new, row.parts)?)?;
    let wanted = report_of(alloc, row)?;
    if status == status_of(row) && found.as_slice() == wanted.as_slice() {
        return Ok(());
    }
    Err(differs(row.name, status, found.as_slice()))
}

/// Fails at the first row whose file has another report, or whose check ends otherwise.
pub fn expect_rows(alloc: Global, rows: &[Row]) -> Result<(), Fail> {
    for row in rows {
        expect_row(alloc, row)?;
    }
    Ok(())
}

fn expect_run(alloc: Global, row: &Run) -> Result<(), Fail> {
    let failing = reads_that_fail(alloc, row.unread)?;
    let file = made(alloc, row.new, row.parts)?;
    let (status, found) = run(alloc, row.words, file, failing, row.unwritten)?;
    let wanted = joined(alloc, row.lines)?;
    if status == row.status && found.as_slice() == wanted.as_slice() {
        return Ok(());
    }
    Err(differs(row.name, status, found.as_slice()))
}

/// Fails at the first row whose command ends otherwise, or writes another text.
pub fn expect_runs(alloc: Global, rows: &[Run]) -> Result<(), Fail> {
    for row in rows {
        expect_run(alloc, row)?;
    }
    Ok(())
}
