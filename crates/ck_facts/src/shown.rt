// The errors that one page of an object shows by itself.
ghost use Rattle.std.specs.Prelude.{◌≡◌, [], IsTrue, IfOk, OnOk};
ghost use Rattle.spec_tables.specs.PageRules as spec;
ghost use Rattle.spec_check.specs.Pages.{wrong_byte};
ghost use Rattle.ck_error.specs.Gathered.{Adds};
ghost use Rattle.ck_facts.specs.Tested.{Falls, IsOutOfOrder, HasOtherFullness, IsShownBy};

use crate::CheckError;
use crate::page::TestedPage;
use pg_base::{NoMemory, ObjId, PageNo};
use pg_slots::SlotFault;
use smallvec::SmallVec;
use std::alloc::Global;

/// The error of a page that fails its test, with its first fault.
pub(crate) fn fault_error(object: ObjId, p: PageNo, fault: &SlotFault) -> CheckError
    ensures { result ≡ spec.fault_error object.0 p.0 fault.now }
{
    CheckError {
        number: fault.number,
        object: object.0,
        page: p.0,
        other: fault.other,
        slot: fault.slot,
        value: fault.value,
    }
}

fn order_error(page: &TestedPage<'_>, slot: u16, key: u64) -> CheckError
    ensures { result ≡ spec.wrong_order page.now.object.0 page.now.number.0 slot key }
{
    CheckError {
        number: 2511,
        object: page.object.0,
        page: page.number.0,
        other: 0,
        slot: u32::from(slot),
        value: key,
    }
}

fn fullness_error(page: &TestedPage<'_>, pfs: u8) -> CheckError
    ensures { result ≡ wrong_byte 8914 page.now.object.0 page.now.number.0 pfs }
{
    CheckError {
        number: 8914,
        object: page.object.0,
        page: page.number.0,
        other: 0,
        slot: 0,
        value: u64::from(pfs),
    }
}

// Adds the error at the end where its condition holds.
fn push_if(
    errors: &mut SmallVec<CheckError, 4>,
    holds: bool,
    error: CheckError,
) -> Result<(), NoMemory>
    ensures { OnOk result (Adds errors.old.items errors.new.items (λ x. IsTrue holds × (x ≡ error))) }
{
    if !holds {
        return Ok(());
    }
    errors.push(error)?;
    Ok(())
}

// The keys that aren't above the key before.
fn push_falls(errors: &mut SmallVec<CheckError, 4>, page: &TestedPage<'_>) -> Result<(), NoMemory>
    ensures { OnOk result (Adds errors.old.items errors.new.items (Falls page.now)) }
{
    if page.header.slots == 0 {
        return Ok(());
    }
    let mut low = page.key(0);
    for slot in 1..page.header.slots {
        let key = page.key(slot);
        push_if(errors, key <= low, order_error(page, slot, key))?;
        low = key;
    }
    Ok(())
}

fn push_order_errors(
    errors: &mut SmallVec<CheckError, 4>,
    page: &TestedPage<'_>,
) -> Result<(), NoMemory>
    ensures { OnOk result (Adds errors.old.items errors.new.items (IsOutOfOrder page.now)) }
{
    if !page.kind.is_clustered() {
        return Ok(());
    }
    push_falls(errors, page)
}

fn push_fullness_error(
    errors: &mut SmallVec<CheckError, 4>,
    page: &TestedPage<'_>,
    pfs: u8,
) -> Result<(), NoMemory>
    ensures { OnOk result (Adds errors.old.items errors.new.items (HasOtherFullness page.now pfs)) }
{
    push_if(
        errors,
        pfs % 8 != page.fullness(),
        fullness_error(page, pfs),
    )?;
    Ok(())
}

/// The errors of a page that passed its test: keys out of order and the wrong fullness in its PFS byte.
pub(crate) fn errors_of(
    alloc: Global,
    page: &TestedPage<'_>,
    pfs: u8,
) -> Result<SmallVec<CheckError, 4>, NoMemory>
    ensures { IfOk result (λ errors. Adds [] errors.items (IsShownBy page.now pfs)) }
{
    let mut errors = SmallVec::new(alloc);
    push_order_errors(&mut errors, page)?;
    push_fullness_error(&mut errors, page, pfs)?;
    Ok(errors)
}
