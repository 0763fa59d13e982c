//! A check takes items back from the pages that it holds.
ghost use Rattle.std.specs.Prelude.{◌≡◌, ◌-◌, ◌<◌, ◌≤◌, true, false, length, reverse, slice_get, Some};
ghost use Rattle.spec_file.specs.Image.{Image};
ghost use Rattle.spec_log.specs.declared.item.Record.{Record};
ghost use Rattle.spec_log.specs.Items.{tran_of};
ghost use Rattle.spec_log.specs.Log.{item_at};
ghost use Rattle.spec_log.specs.Images.{put_after, take_back};
ghost use Rattle.db_core.specs.States.{is_among};
ghost use Rattle.db_core.specs.Back.{first_back, without, MayPutLeft, MayTakeBack, MayGoBack, GoesBack};

use crate::session::{Check, Phase};
use spec_log::{Record, tran_of_item};
use vol_pool::Frames;

/// Whether an item is of one of these transactions.
fn is_theirs(ongoing: &[u64], item: &Record) -> bool
    ensures { result ≡ is_among ongoing.now (tran_of item.now) }
{
    let tran = tran_of_item(item);
    ongoing.iter().any(|other| *other == tran)
}

/// Whether there are items before this place, the last of which is of none of these transactions.
fn is_passed(items: &[Record], ongoing: &[u64], place: usize) -> bool
    requires { place ≤ length items.now }
    ensures some { result ≡ true → 0 < place }
    ensures same { result ≡ true → (image : Image) → without ongoing.now items.now place image ≡ without ongoing.now items.now (place - 1) image }
    ensures met { result ≡ false → 0 < place → (x : Record) → slice_get items.now (place - 1) ≡ Some x → is_among ongoing.now (tran_of x) ≡ true }
{
    if place == 0 {
        return false;
    }
    !is_theirs(ongoing, &items[place - 1])
}

/// How many of the first `place` items there are up to and with the last one of these transactions,
/// 0 where there is none.
fn last_among(items: &[Record], ongoing: &[u64], place: usize) -> usize
    requires { place ≤ length items.now }
    ensures low { result ≤ place }
    ensures same { (image : Image) → without ongoing.now items.now place image ≡ without ongoing.now items.now result image }
    ensures found { 0 < result → (x : Record) → slice_get items.now (result - 1) ≡ Some x → is_among ongoing.now (tran_of x) ≡ true }
{
    let mut last = place;
    while is_passed(items, ongoing, last) {
        last -= 1;
    }
    last
}

/// Puts what a Change had left. Any other item puts nothing.
fn put_left(frames: &mut Frames, item: &Record)
    requires { MayPutLeft frames.old (Some item.now) }
    ensures { frames.new ≡ put_after (Some item.now) frames.old }
{
    if let Record::Change { cell, after, .. } = item {
        frames.put(*cell, after.as_slice());
    }
}

/// Puts what the Change with this number had left.
fn put_left_at(frames: &mut Frames, older: &[Record], number: u64)
    requires above { 0 < number }
    requires within { number ≤ length older.now }
    requires fits { MayPutLeft frames.old (item_at (reverse older.now) number) }
    ensures { frames.new ≡ put_after (item_at (reverse older.now) number) frames.old }
{
    put_left(frames, &older[(number - 1) as usize]);
}

/// Takes an item back, before the older ones.
fn take_item_back(frames: &mut Frames, older: &[Record], item: &Record)
    requires { MayTakeBack frames.old (reverse older.now) item.now }
    ensures { frames.new ≡ take_back (reverse older.now) item.now frames.old }
{
    match item {
        Record::Change { cell, before, .. } => frames.put(*cell, before.as_slice()),
        Record::Undo { change, .. } => put_left_at(frames, older, change.0),
        _ => {}
    }
}

/// Takes the item at a place back. Those before it may be next.
fn take_at(check: &mut Check, items: &[Record], at: usize)
    requires inside { at < length items.now }
    requires fits { (x : Record) → slice_get items.now at ≡ Some x → MayTakeBack check.old.pages (first_back items.now at) x }
    ensures place { check.new.place ≡ at }
    ensures pages { (x : Record) → slice_get items.now at ≡ Some x → check.new.pages ≡ take_back (first_back items.now at) x check.old.pages }
    ensures point { check.new.point ≡ check.old.point }
    ensures ongoing { check.new.ongoing.items ≡ check.old.ongoing.items }
    ensures phase { check.new.phase ≡ check.old.phase }
{
    take_item_back(&mut check.pages, &items[..at], &items[at]);
    check.place = at;
}

/// Takes the last item back that is left: a Change puts what it found, an Undo what its Change had
/// left. Where none is left the check knows so.
pub fn go_back(check: &mut Check, items: &[Record])
    requires fits { MayGoBack items.now check.old }
    ensures { GoesBack items.now check.old check.new }
{
    let last = last_among(items, check.ongoing.as_slice(), check.place);
    if last == 0 {
        check.place = 0;
        check.phase = Phase::Undone;
    } else {
        take_at(check, items, last - 1);
    }
}
