//! The images of a file under a log. The items stand in the log's order, the oldest first.
ghost use Rattle.std.specs.Prelude.{slice_get, ◌≡◌, ◌+◌, ◌<◌, ◌≤◌, Some, take, drop, reverse, length, IfOk, OnOk};
ghost use Rattle.std.specs.Option.{option_copied};
ghost use Rattle.plain_log.specs.Steps.{with_committed};
ghost use Rattle.spec_log.specs.Log.{item_at, is_unfinished as log_is_unfinished};
ghost use Rattle.spec_log.specs.Images.{put_before, put_after, apply, take_back, taken_back};
ghost use Rattle.spec_log.specs.Images.{final_image as log_final_image, start_image as log_start_image, committed_image as log_committed_image};

use crate::PlainImage;
use crate::put::put;
use crate::scan::{has_committed, is_unfinished};
use spec_file::{Lsn, NoMemory};
use spec_log::{Record, tran_of_item};
use std::alloc::Global;

/// The item with this LSN, none where there is none.
pub fn item_with(items: &[Record], lsn: Lsn) -> Option<&Record>
    ensures { option_copied result ≡ item_at (reverse items.now) lsn.0 }
{
    if lsn.0 == 0 {
        return None;
    }
    item_from(items, (lsn.0 - 1) as usize)
}

/// The item at a place from 0, none where there is none.
fn item_from(items: &[Record], at: usize) -> Option<&Record>
    ensures { option_copied result ≡ slice_get items.now at }
{
    items.get(at)
}

/// Puts what a Change had found. Any other item puts nothing.
fn put_found(alloc: Global, item: &Record, image: &mut PlainImage) -> Result<(), NoMemory>
    ensures { OnOk result (image.new ≡ put_before (Some item.now) image.old) }
{
    match item {
        Record::Change { cell, before, .. } => put(alloc, image, *cell, before.as_slice()),
        _ => Ok(()),
    }
}

/// Puts what a Change left. Any other item puts nothing.
fn put_left(alloc: Global, item: &Record, image: &mut PlainImage) -> Result<(), NoMemory>
    ensures { OnOk result (image.new ≡ put_after (Some item.now) image.old) }
{
    match item {
        Record::Change { cell, after, .. } => put(alloc, image, *cell, after.as_slice()),
        _ => Ok(()),
    }
}

/// Undoes the Change with this LSN.
fn undo(
    alloc: Global,
    older: &[Record],
    change: Lsn,
    image: &mut PlainImage,
) -> Result<(), NoMemory>
    ensures { OnOk result (image.new ≡ put_before (item_at (reverse older.now) change.0) image.old) }
{
    match item_with(older, change) {
        Some(item) => put_found(alloc, item, image),
        None => Ok(()),
    }
}

/// Takes the undoing of the Change with this LSN back.
fn redo(
    alloc: Global,
    older: &[Record],
    change: Lsn,
    image: &mut PlainImage,
) -> Result<(), NoMemory>
    ensures { OnOk result (image.new ≡ put_after (item_at (reverse older.now) change.0) image.old) }
{
    match item_with(older, change) {
        Some(item) => put_left(alloc, item, image),
        None => Ok(()),
    }
}

/// Applies an item after the older ones.
fn apply_item(
    alloc: Global,
    older: &[Record],
    item: &Record,
    image: &mut PlainImage,
) -> Result<(), NoMemory>
    ensures { OnOk result (image.new ≡ apply (reverse older.now) item.now image.old) }
{
    match item {
        Record::Change { cell, after, .. } => put(alloc, image, *cell, after.as_slice()),
        Record::Undo { change, .. } => undo(alloc, older, *change, image),
        _ => Ok(()),
    }
}

/// Takes an item back, before the older ones.
pub fn take_item_back(
    alloc: Global,
    older: &[Record],
    item: &Record,
    image: &mut PlainImage,
) -> Result<(), NoMemory>
    ensures { OnOk result (image.new ≡ take_back (reverse older.now) item.now image.old) }
{
    match item {
        Record::Change { cell, before, .. } => put(alloc, image, *cell, before.as_slice()),
        Record::Undo { change, .. } => redo(alloc, older, *change, image),
        _ => Ok(()),
    }
}

/// The file as it stands after all items. The first `opened` of them are the log as it was found.
pub fn final_image(
    alloc: Global,
    items: &[Record],
    opened: usize,
    b: PlainImage,
) -> Result<PlainImage, NoMemory>
    requires { opened ≤ length items.now }
    ensures { IfOk result (λ image. image ≡ log_final_image (reverse (take opened items.now)) (reverse (drop opened items.now)) b) }
{
    let mut image = b;
    for i in opened..items.len() {
        apply_item(alloc, &items[..i], &items[i], &mut image)?;
    }
    Ok(image)
}

/// Takes item i back where its transaction is unfinished in the whole log: what is then left to take back
/// gives the same image.
fn take_unfinished_back(
    alloc: Global,
    items: &[Record],
    i: usize,
    image: &mut PlainImage,
) -> Result<(), NoMemory>
    requires { i < length items.now }
    ensures { OnOk result (taken_back (log_is_unfinished (reverse items.now)) (reverse (take (i + 1) items.now)) image.old ≡ taken_back (log_is_unfinished (reverse items.now)) (reverse (take i items.now)) image.new) }
{
    let item = &items[i];
    if !is_unfinished(items, tran_of_item(item)) {
        return Ok(());
    }
    take_item_back(alloc, &items[..i], item, image)
}

/// The file as it was opened, without what was unfinished then.
pub fn start_image(alloc: Global, opened: &[Record], b: PlainImage) -> Result<PlainImage, NoMemory>
    ensures { IfOk result (λ image. image ≡ log_start_image (reverse opened.now) b) }
{
    let mut image = b;
    let mut i = opened.len();
    while i > 0 {
        i -= 1;
        take_unfinished_back(alloc, opened, i, &mut image)?;
    }
    Ok(image)
}

/// Puts what a Change left where its transaction has committed in the whole log.
fn commit_change(
    alloc: Global,
    log: &[Record],
    item: &Record,
    image: &mut PlainImage,
) -> Result<(), NoMemory>
    ensures { OnOk result (image.new ≡ with_committed (reverse log.now) item.now image.old) }
{
    match item {
        Record::Change {
            tran,
            cell,
            after,
            ..
        } => {
            if !has_committed(log, tran.0) {
                return Ok(());
            }
            put(alloc, image, *cell, after.as_slice())
        }
        _ => Ok(()),
    }
}

/// What was committed: the start image with the Changes of the transactions that have committed since.
pub fn committed_image(
    alloc: Global,
    opened: &[Record],
    log: &[Record],
    b: PlainImage,
) -> Result<PlainImage, NoMemory>
    ensures { IfOk result (λ image. image ≡ log_committed_image (reverse opened.now) (reverse log.now) b) }
{
    let mut image = start_image(alloc, opened, b)?;
    for item in log {
        commit_change(alloc, log, item, &mut image)?;
    }
    Ok(image)
}
