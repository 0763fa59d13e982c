// The errors of the system places and of the boot page.
ghost use Rattle.std.specs.Prelude.{◌≡◌, ◌↔◌, ◌<◌, ◌/◌, ◌*◌, IsTrue, OnOk};
ghost use Rattle.spec_file.specs.Places as places;
ghost use Rattle.spec_file.specs.Roles.{system_type};
ghost use Rattle.spec_check.specs.System.{HasWrongHeader, IsWrong, IsErrorOf, wrong_page, wrong_interval};
ghost use Rattle.ck_error.specs.Gathered.{Adds};
ghost use Rattle.ck_alloc.specs.SystemMaps.{GivesError};

use db_cat::catalog_passes;
use pg_base::{
    BOOT_TYPE, GAM_TYPE, Geometry, NoMemory, PFS_TYPE, Page, PageNo, Role, SGAM_TYPE, is_page_of,
};
use pg_geom::{interval_pages, role_of};
use spec_check::CheckError;

// The type that a page of this role must have.
fn type_of(role: Role) -> Option<u8>
    ensures { result ≡ system_type role }
{
    match role {
        Role::Pfs => Some(PFS_TYPE),
        Role::Gam => Some(GAM_TYPE),
        Role::Sgam => Some(SGAM_TYPE),
        Role::Boot => Some(BOOT_TYPE),
        Role::FileHeader | Role::Reserved | Role::Ordinary => None,
    }
}

fn has_wrong_header(g: Geometry, p: PageNo, page: &Page) -> bool
    requires { p.0 < places.page_limit g }
    ensures { IsTrue result ↔ HasWrongHeader g p.0 page.now.bytes }
{
    match type_of(role_of(g, p)) {
        Some(page_type) => !is_page_of(page, page_type, p),
        None => false,
    }
}

fn is_wrong(g: Geometry, p: PageNo, page: &Page) -> bool
    requires { p.0 < places.page_limit g }
    ensures { IsTrue result ↔ IsWrong g p.0 page.now.bytes }
{
    has_wrong_header(g, p, page) || (p.0 == 9 && !catalog_passes(page))
}

fn wrong_page_error(p: PageNo, page_type: u8) -> CheckError
    ensures { result ≡ wrong_page p.0 page_type }
{
    CheckError {
        number: 8946,
        object: 0,
        page: p.0,
        other: 0,
        slot: 0,
        value: u64::from(page_type),
    }
}

fn wrong_interval_error(g: Geometry, p: PageNo) -> CheckError
    requires { p.0 < places.page_limit g }
    ensures { result ≡ wrong_interval g (places.interval_of_page g p.0) }
{
    let size = interval_pages(g);
    let interval = p.0 / size;
    CheckError {
        number: 8998,
        object: 0,
        page: size * interval,
        other: 0,
        slot: 0,
        value: u64::from(interval),
    }
}

// Adds both errors of page p.
fn add_both(
    errors: &mut Vec<CheckError>,
    g: Geometry,
    p: PageNo,
    page: &Page,
) -> Result<(), NoMemory>
    requires { p.0 < places.page_limit g }
    ensures { OnOk result (Adds errors.old.items errors.new.items (IsErrorOf g p.0 page.now.bytes)) }
{
    errors.push(wrong_page_error(p, page.bytes[1]))?;
    errors.push(wrong_interval_error(g, p))?;
    Ok(())
}

/// Adds both errors of page p where it is wrong.
pub fn note(
    errors: &mut Vec<CheckError>,
    g: Geometry,
    p: PageNo,
    page: &Page,
) -> Result<(), NoMemory>
    requires { p.0 < places.page_limit g }
    ensures { OnOk result (Adds errors.old.items errors.new.items (GivesError g p.0 page.now.bytes)) }
{
    if !is_wrong(g, p, page) {
        return Ok(());
    }
    add_both(errors, g, p, page)
}
