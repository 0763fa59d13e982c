// The single-page slots of an object: those of its chain's first page.
ghost use Rattle.std.specs.Prelude.{◌≡◌, ◌<◌, ◌≤◌, ◌↔◌, IsTrue, OnOk};
ghost use Rattle.spec_file.specs.Iam as spec;
ghost use Rattle.spec_file.specs.Places as places;
ghost use Rattle.ck_error.specs.Gathered.{Adds, Below};
ghost use Rattle.pg_iam.specs.Views.{bytes_of};
ghost use Rattle.ck_chain.specs.Pages.{SlotBehind, SlotHolds};

use ck_error::{CheckError, push_if};
use ck_facts::PageUse;
use pg_base::{NoMemory, PageNo};
use pg_geom::is_inside;
use pg_iam::IamView;

// The page in slot i, 0 for none.
fn slot_at(iam: &IamView<'_>, i: usize) -> u32
    requires { i < 8 }
    ensures { result ≡ spec.iam_slot (bytes_of iam.now) i }
{
    let slots = iam.slots();
    slots[i].0
}

fn slot_error(id: u32, q: u32, p: u32, i: usize) -> CheckError
    requires { i < 8 }
    ensures { result ≡ (record { number = 8968; object = id; page = q; other = p; slot = i; value = 0 }) }
{
    CheckError {
        number: 8968,
        object: id,
        page: q,
        other: p,
        slot: i as u32,
        value: 0,
    }
}

fn is_behind(pages: u32, p: u32) -> bool
    ensures { IsTrue result ↔ (pages ≤ p) }
{
    pages <= p
}

fn note_slot(
    errors: &mut Vec<CheckError>,
    pages: u32,
    id: u32,
    q: u32,
    iam: &IamView<'_>,
    i: usize,
) -> Result<(), NoMemory>
    requires { i < 8 }
    ensures { OnOk result (Adds errors.old.items errors.new.items (SlotBehind pages id q (bytes_of iam.now) i)) }
{
    let p = slot_at(iam, i);
    push_if(errors, is_behind(pages, p), slot_error(id, q, p, i))
}

/// Adds an error for each slot that holds a number at or past the file's end.
pub fn note_slots(
    errors: &mut Vec<CheckError>,
    pages: u32,
    id: u32,
    q: u32,
    iam: &IamView<'_>,
) -> Result<(), NoMemory>
    ensures { OnOk result (Adds errors.old.items errors.new.items (Below 8 (SlotBehind pages id q (bytes_of iam.now)))) }
{
    for i in 0..8 {
        note_slot(errors, pages, id, q, iam, i)?;
    }
    Ok(())
}

fn take_slot(
    uses: &mut Vec<PageUse>,
    pages: u32,
    id: u32,
    iam: &IamView<'_>,
    i: usize,
) -> Result<(), NoMemory>
    requires { i < 8 }
    ensures { OnOk result (Adds uses.old.items uses.new.items (SlotHolds pages id (bytes_of iam.now) i)) }
{
    let page = slot_at(iam, i);
    if !is_inside(pages, PageNo(page)) {
        return Ok(());
    }
    uses.push(PageUse {
        page,
        object: id,
        place: i as u8,
    })?;
    Ok(())
}

/// Adds a use for each slot that holds a page of the file.
pub fn take_slots(
    uses: &mut Vec<PageUse>,
    pages: u32,
    id: u32,
    iam: &IamView<'_>,
) -> Result<(), NoMemory>
    ensures { OnOk result (Adds uses.old.items uses.new.items (Below 8 (SlotHolds pages id (bytes_of iam.now)))) }
{
    for i in 0..8 {
        take_slot(uses, pages, id, iam, i)?;
    }
    Ok(())
}
