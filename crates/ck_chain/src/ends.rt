// How a chain ends.
ghost use Rattle.std.specs.Prelude.{◌≡◌, ◌<◌, ◌≤◌, ◌&&◌, ◌==◌, if◌then◌else◌, OnOk, Some};
ghost use Rattle.spec_file.specs.Places.{page_limit};
ghost use Rattle.spec_chain.specs.Chains as chains;
ghost use Rattle.spec_chain.specs.declared.end.ChainEnd.TheVariants as end;
ghost use Rattle.spec_check.specs.Chains.{error_of_end};
ghost use Rattle.ck_error.specs.Gathered.{Adds};

use ck_error::{CheckError, push_some};
use pg_base::{Geometry, IAM_TYPE, NoMemory, Page, PageNo, is_page_of, u32_at};
use pg_geom::{is_inside, is_ordinary};
use pg_iam::has_interval;
use spec_chain::ChainEnd;

// What a pointer that is no page of the file is, behind so many pages of the chain.
fn outside(count: u32, q: u32) -> ChainEnd
    ensures { result ≡ (if chains.is_last count q then end.Whole else end.Outside) }
{
    if q == 0 && count != 0 {
        ChainEnd::Whole
    } else {
        ChainEnd::Outside
    }
}

/// What is wrong with a pointer behind so many pages of the chain, by its number alone.
pub fn fault_of_number(g: Geometry, pages: u32, count: u32, q: u32) -> Option<ChainEnd>
    requires { pages ≤ page_limit g }
    ensures { result ≡ chains.fault_of_number g pages count q }
{
    if !is_inside(pages, PageNo(q)) {
        return Some(outside(count, q));
    }
    if !is_ordinary(g, PageNo(q)) {
        return Some(ChainEnd::NotIam);
    }
    None
}

/// What is wrong with page q of an object's chain, by its bytes.
pub fn fault_of_page(g: Geometry, pages: u32, id: u32, q: u32, page: &Page) -> Option<ChainEnd>
    ensures { result ≡ chains.fault_of_bytes g pages id q page.now.bytes }
{
    if !is_page_of(page, IAM_TYPE, PageNo(q)) {
        return Some(ChainEnd::NotIam);
    }
    if u32_at(&page.bytes, 8) != id {
        return Some(ChainEnd::OtherObject);
    }
    if !has_interval(g, pages, u32_at(&page.bytes, 96)) {
        return Some(ChainEnd::WrongInterval);
    }
    None
}

pub(crate) fn error(number: u32, id: u32, page: u32, other: u32, value: u32) -> CheckError
    ensures { result ≡ (record { number = number; object = id; page = page; other = other; slot = 0; value = value }) }
{
    CheckError {
        number,
        object: id,
        page,
        other,
        slot: 0,
        value: u64::from(value),
    }
}

// The error that the end of a chain gives: its pointer q, which page p holds, and the bytes of page q.
fn end_error(id: u32, q: u32, p: u32, page: &Page, end: ChainEnd) -> Option<CheckError>
    ensures { result ≡ error_of_end id q p page.now.bytes end }
{
    match end {
        ChainEnd::Whole => None,
        ChainEnd::Outside => Some(error(8968, id, p, q, 0)),
        ChainEnd::NotIam => Some(error(2575, id, q, p, 0)),
        ChainEnd::OtherObject => Some(error(8959, id, q, p, u32_at(&page.bytes, 8))),
        ChainEnd::WrongInterval => Some(error(8968, id, q, 0, u32_at(&page.bytes, 96))),
        ChainEnd::Met => Some(error(8969, id, q, p, 0)),
    }
}

/// Adds the error of a chain's end.
pub fn note_end(
    errors: &mut Vec<CheckError>,
    id: u32,
    q: u32,
    p: u32,
    page: &Page,
    end: ChainEnd,
) -> Result<(), NoMemory>
    ensures { OnOk result (Adds errors.old.items errors.new.items (λ x. error_of_end id q p page.now.bytes end ≡ Some x)) }
{
    push_some(errors, end_error(id, q, p, page, end))
}
