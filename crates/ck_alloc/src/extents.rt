// The rules of extents.
ghost use Rattle.std.specs.Prelude.{◌≡◌, ◌<◌, ◌≤◌, ◌&&◌, OnOk};
ghost use Rattle.spec_check.specs.Maps as spec;
ghost use Rattle.ck_error.specs.Gathered.{Adds};
ghost use Rattle.ck_alloc.specs.ExtentRules as rules_of;

use ck_error::{CheckError, push_if};
use spec_check::Claims;
use spec_file::NoMemory;

/// What the maps say of one extent, but for the objects that mark it.
#[derive(Clone, Copy)]
pub struct ExtentState {
    pub extent: u32,
    pub free: bool,
    pub mixed: bool,
    pub system: bool,
    /// A page of it has a use, or is the boot page.
    pub used: bool,
}

fn worth(n: u32, claimed: bool) -> u32
    ensures value { result ≡ spec.worth n claimed }
    ensures bound { result ≤ n }
{
    if claimed { n } else { 0 }
}

fn claim_count(c: &Claims) -> u32
    ensures { result ≡ spec.claim_count c.now }
{
    worth(1, c.system) + worth(1, c.free) + worth(1, c.mixed) + worth(1, c.marked)
}

fn claim_sum(c: &Claims) -> u32
    ensures { result ≡ spec.claim_sum c.now }
{
    worth(1, c.system) + worth(2, c.free) + worth(4, c.mixed) + worth(8, c.marked)
}

fn claims_of(state: &ExtentState, markers: &[u32]) -> Claims
    ensures { result ≡ rules_of.claims_of state.now markers.now }
{
    Claims {
        system: state.system,
        free: state.free,
        mixed: state.used || state.mixed && !state.free,
        marked: !markers.is_empty(),
    }
}

fn has_no_claim(state: &ExtentState, markers: &[u32]) -> bool
    ensures { result ≡ rules_of.has_no_claim state.now markers.now }
{
    let listed = state.free || state.mixed;
    let held = state.system || state.used;
    !listed && !held && markers.is_empty()
}

fn is_in_both(state: &ExtentState) -> bool
    ensures { result ≡ (state.now.free && state.now.mixed) }
{
    state.free && state.mixed
}

fn both_maps_error(extent: u32) -> CheckError
    requires { extent < 65536 }
    ensures { result ≡ spec.both_maps extent }
{
    CheckError {
        number: 8903,
        object: 0,
        page: 8 * extent,
        other: 0,
        slot: 0,
        value: 0,
    }
}

fn two_markers_error(extent: u32, first: u32, second: u32, count: usize) -> CheckError
    requires { extent < 65536 }
    ensures { result ≡ spec.two_markers extent first second count }
{
    CheckError {
        number: 8904,
        object: first,
        page: 8 * extent,
        other: second,
        slot: 0,
        value: count as u64,
    }
}

fn lost_extent_error(extent: u32) -> CheckError
    requires { extent < 65536 }
    ensures { result ≡ spec.lost_extent extent }
{
    CheckError {
        number: 8905,
        object: 0,
        page: 8 * extent,
        other: 0,
        slot: 0,
        value: 0,
    }
}

fn lowest(markers: &[u32]) -> u32
    ensures { result ≡ spec.lowest markers.now }
{
    match markers {
        [first, ..] => *first,
        [] => 0,
    }
}

fn two_claims_error(extent: u32, markers: &[u32], claims: &Claims) -> CheckError
    requires { extent < 65536 }
    ensures { result ≡ spec.two_claims extent markers.now claims.now }
{
    CheckError {
        number: 8913,
        object: lowest(markers),
        page: 8 * extent,
        other: 0,
        slot: 0,
        value: u64::from(claim_sum(claims)),
    }
}

fn add_two_markers(
    errors: &mut Vec<CheckError>,
    extent: u32,
    markers: &[u32],
) -> Result<(), NoMemory>
    requires { extent < 65536 }
    ensures { OnOk result (Adds errors.old.items errors.new.items (spec.GivesTwoMarkers extent markers.now)) }
{
    if markers.len() < 2 {
        return Ok(());
    }
    errors.push(two_markers_error(extent, markers[0], markers[1], markers.len()))?;
    Ok(())
}

fn add_lost_extent(
    errors: &mut Vec<CheckError>,
    state: &ExtentState,
    markers: &[u32],
) -> Result<(), NoMemory>
    requires { state.now.extent < 65536 }
    ensures { OnOk result (Adds errors.old.items errors.new.items (rules_of.LostSays state.now markers.now)) }
{
    push_if(
        errors,
        has_no_claim(state, markers),
        lost_extent_error(state.extent),
    )
}

fn add_two_claims(
    errors: &mut Vec<CheckError>,
    state: &ExtentState,
    markers: &[u32],
) -> Result<(), NoMemory>
    requires { state.now.extent < 65536 }
    ensures { OnOk result (Adds errors.old.items errors.new.items (rules_of.ClaimsSay state.now markers.now)) }
{
    let claims = claims_of(state, markers);
    let error = two_claims_error(state.extent, markers, &claims);
    push_if(errors, claim_count(&claims) > 1, error)
}

fn add_both_maps(errors: &mut Vec<CheckError>, state: &ExtentState) -> Result<(), NoMemory>
    requires { state.now.extent < 65536 }
    ensures { OnOk result (Adds errors.old.items errors.new.items (rules_of.BothSay state.now)) }
{
    push_if(errors, is_in_both(state), both_maps_error(state.extent))
}

/// Adds the errors of an extent that these objects mark.
pub fn add_extent_errors(
    errors: &mut Vec<CheckError>,
    state: &ExtentState,
    markers: &[u32],
) -> Result<(), NoMemory>
    requires { state.now.extent < 65536 }
    ensures { OnOk result (Adds errors.old.items errors.new.items (rules_of.ExtentSays state.now markers.now)) }
{
    add_both_maps(errors, state)?;
    add_two_markers(errors, state.extent, markers)?;
    add_lost_extent(errors, state, markers)?;
    add_two_claims(errors, state, markers)
}
