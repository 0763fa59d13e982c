// The rules of uses and of PFS bytes.
ghost use Rattle.std.specs.Prelude.{◌≡◌, ◌==◌, ◌&&◌, length, map, OnOk};
ghost use Rattle.spec_check.specs.Pages as spec;
ghost use Rattle.ck_error.specs.Gathered.{Adds, Each};
ghost use Rattle.ck_facts.specs.Maps.{use_of};
ghost use Rattle.ck_alloc.specs.PageRules as rules_of;

use ck_error::{CheckError, push_if};
use ck_facts::PageUse;
use pg_base::Role;
use pg_pfs::{PfsKind, expected, is_allocated};
use spec_file::NoMemory;

/// What a page is for by its number, and its PFS byte.
#[derive(Clone, Copy)]
pub struct PageState {
    pub page: u32,
    pub role: Role,
    pub byte: u8,
}

// Nobody uses the page, and nobody marks its extent.
fn is_unowned(uses: &[PageUse], markers: &[u32]) -> bool
    ensures { result ≡ ((length uses.now == 0) && (length markers.now == 0)) }
{
    uses.is_empty() && markers.is_empty()
}

fn is_lost_page(state: &PageState, uses: &[PageUse], markers: &[u32]) -> bool
    ensures { result ≡ rules_of.is_lost_page state.now uses.now markers.now }
{
    state.role.is_for_objects() && is_allocated(state.byte) && is_unowned(uses, markers)
}

fn lost_page_error(state: &PageState) -> CheckError
    ensures { result ≡ spec.lost_page state.now.page state.now.byte }
{
    CheckError {
        number: 8906,
        object: 0,
        page: state.page,
        other: 0,
        slot: 0,
        value: u64::from(state.byte),
    }
}

fn add_lost_page(
    errors: &mut Vec<CheckError>,
    state: &PageState,
    uses: &[PageUse],
    markers: &[u32],
) -> Result<(), NoMemory>
    ensures { OnOk result (Adds errors.old.items errors.new.items (rules_of.LostSays state.now uses.now markers.now)) }
{
    push_if(
        errors,
        is_lost_page(state, uses, markers),
        lost_page_error(state),
    )
}

fn two_uses_error(page: u32, first: &PageUse, second: &PageUse, count: usize) -> CheckError
    ensures { result ≡ spec.two_uses page (use_of first.now) (use_of second.now) count }
{
    CheckError {
        number: 8910,
        object: first.object,
        page,
        other: second.object,
        slot: 0,
        value: count as u64,
    }
}

fn add_two_uses(errors: &mut Vec<CheckError>, page: u32, uses: &[PageUse]) -> Result<(), NoMemory>
    ensures { OnOk result (Adds errors.old.items errors.new.items (spec.GivesTwoUses page (map use_of uses.now))) }
{
    if uses.len() < 2 {
        return Ok(());
    }
    errors.push(two_uses_error(page, &uses[0], &uses[1], uses.len()))?;
    Ok(())
}

// The use that the PFS byte should tell of by the page's role; none for an ordinary page.
fn kind_of_role(role: Role) -> Option<PfsKind>
    ensures { result ≡ spec.kind_of_role role }
{
    match role {
        Role::FileHeader | Role::Pfs | Role::Gam | Role::Sgam => Some(PfsKind::System),
        Role::Reserved => Some(PfsKind::Reserved),
        Role::Boot => Some(PfsKind::Boot),
        Role::Ordinary => None,
    }
}

fn kind_of_place(place: u8) -> PfsKind
    ensures { result ≡ rules_of.kind_of_place place }
{
    if place < 8 {
        PfsKind::Single
    } else {
        PfsKind::Iam
    }
}

fn kind_of_mark(byte: u8) -> PfsKind
    ensures { result ≡ rules_of.kind_of_mark byte }
{
    if is_allocated(byte) {
        PfsKind::Uniform
    } else {
        PfsKind::Unused
    }
}

fn holds_rows(kind: PfsKind) -> bool
    ensures { result ≡ rules_of.holds_rows kind }
{
    match kind {
        PfsKind::Single | PfsKind::Uniform => true,
        PfsKind::System | PfsKind::Reserved | PfsKind::Boot | PfsKind::Iam | PfsKind::Unused =>
            false,
    }
}

fn has_wrong_flags(byte: u8, kind: PfsKind) -> bool
    ensures { result ≡ rules_of.has_wrong_flags byte kind }
{
    byte / 8 != expected(kind, 0) / 8
}

fn has_wrong_fullness(byte: u8, kind: PfsKind) -> bool
    ensures { result ≡ rules_of.has_wrong_fullness byte kind }
{
    !holds_rows(kind) && byte % 8 != expected(kind, 0) % 8
}

fn wrong_byte_error(number: u32, object: u32, state: &PageState) -> CheckError
    ensures { result ≡ spec.wrong_byte number object state.now.page state.now.byte }
{
    CheckError {
        number,
        object,
        page: state.page,
        other: 0,
        slot: 0,
        value: u64::from(state.byte),
    }
}

// Tests the PFS byte as that of a page of this kind, for an object, 0 for none.
fn add_test(
    errors: &mut Vec<CheckError>,
    state: &PageState,
    object: u32,
    kind: PfsKind,
) -> Result<(), NoMemory>
    ensures { OnOk result (Adds errors.old.items errors.new.items (rules_of.TestSays state.now object kind)) }
{
    let flags = wrong_byte_error(8948, object, state);
    let fullness = wrong_byte_error(8914, object, state);
    push_if(errors, has_wrong_flags(state.byte, kind), flags)?;
    push_if(errors, has_wrong_fullness(state.byte, kind), fullness)
}

fn add_use_test(
    errors: &mut Vec<CheckError>,
    state: &PageState,
    used: &PageUse,
) -> Result<(), NoMemory>
    ensures { OnOk result (Adds errors.old.items errors.new.items (rules_of.UseSays state.now used.now)) }
{
    add_test(errors, state, used.object, kind_of_place(used.place))
}

fn add_use_tests(
    errors: &mut Vec<CheckError>,
    state: &PageState,
    uses: &[PageUse],
) -> Result<(), NoMemory>
    ensures { OnOk result (Adds errors.old.items errors.new.items (Each uses.now (rules_of.UseSays state.now))) }
{
    for i in 0..uses.len() {
        add_use_test(errors, state, &uses[i])?;
    }
    Ok(())
}

fn add_mark_test(
    errors: &mut Vec<CheckError>,
    state: &PageState,
    object: u32,
) -> Result<(), NoMemory>
    ensures { OnOk result (Adds errors.old.items errors.new.items (rules_of.MarkSays state.now object)) }
{
    add_test(errors, state, object, kind_of_mark(state.byte))
}

fn add_mark_tests(
    errors: &mut Vec<CheckError>,
    state: &PageState,
    markers: &[u32],
) -> Result<(), NoMemory>
    ensures { OnOk result (Adds errors.old.items errors.new.items (Each markers.now (rules_of.MarkSays state.now))) }
{
    for i in 0..markers.len() {
        add_mark_test(errors, state, markers[i])?;
    }
    Ok(())
}

fn is_alone(state: &PageState, uses: &[PageUse], markers: &[u32]) -> bool
    ensures { result ≡ rules_of.is_alone state.now uses.now markers.now }
{
    !is_allocated(state.byte) && is_unowned(uses, markers)
}

fn add_test_alone(
    errors: &mut Vec<CheckError>,
    state: &PageState,
    uses: &[PageUse],
    markers: &[u32],
) -> Result<(), NoMemory>
    ensures { OnOk result (Adds errors.old.items errors.new.items (rules_of.AloneSays state.now uses.now markers.now)) }
{
    if !is_alone(state, uses, markers) {
        return Ok(());
    }
    add_test(errors, state, 0, PfsKind::Unused)
}

fn add_owner_tests(
    errors: &mut Vec<CheckError>,
    state: &PageState,
    uses: &[PageUse],
    markers: &[u32],
) -> Result<(), NoMemory>
    ensures { OnOk result (Adds errors.old.items errors.new.items (rules_of.OwnersSay state.now uses.now markers.now)) }
{
    add_use_tests(errors, state, uses)?;
    add_mark_tests(errors, state, markers)?;
    add_test_alone(errors, state, uses, markers)
}

fn add_byte_errors(
    errors: &mut Vec<CheckError>,
    state: &PageState,
    uses: &[PageUse],
    markers: &[u32],
) -> Result<(), NoMemory>
    ensures { OnOk result (Adds errors.old.items errors.new.items
        (rules_of.ByteSays (spec.kind_of_role state.now.role) state.now uses.now markers.now)) }
{
    match kind_of_role(state.role) {
        Some(kind) => add_test(errors, state, 0, kind),
        None => add_owner_tests(errors, state, uses, markers),
    }
}

/// Adds the errors of a page that has these uses, in an extent that these objects mark.
pub fn add_page_errors(
    errors: &mut Vec<CheckError>,
    state: &PageState,
    uses: &[PageUse],
    markers: &[u32],
) -> Result<(), NoMemory>
    ensures { OnOk result (Adds errors.old.items errors.new.items (rules_of.PageSays state.now uses.now markers.now)) }
{
    add_lost_page(errors, state, uses, markers)?;
    add_two_uses(errors, state.page, uses)?;
    add_byte_errors(errors, state, uses, markers)
}
