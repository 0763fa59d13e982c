// From the system pages of a file to what they say.
ghost use Rattle.std.specs.Prelude.{◌≡◌, IfOk, IfSome};
ghost use Rattle.spec_file.specs.Image.{page as image_page};
ghost use Rattle.ck_error.specs.Gathered.{Adds};
ghost use Rattle.pg_base.specs.Stops.{stop_of};
ghost use Rattle.pg_base.specs.Reading.{OnlyReads};
ghost use Rattle.spec_file.specs.Places.{HasShape};
ghost use Rattle.ck_alloc.specs.SystemMaps.{AreMapsRead, GivesError};

use crate::places::SystemKind;
use crate::system_pages::{read_bits, read_bytes};
use crate::wrong::note;
use pg_base::{Geometry, Page, PageNo, ReadStop, SnapReader, read_page};
use spec_check::CheckError;
use std::alloc::Global;

/// What the system pages of a file say (Pages and Extents Architecture Guide).
#[derive(Drop)]
pub struct SystemMaps {
    /// The errors of the system places and of the boot page, in no order.
    pub errors: Vec<CheckError>,
    /// The GAM bit of each extent.
    pub free: Vec<bool>,
    /// The SGAM bit of each extent.
    pub mixed: Vec<bool>,
    /// The PFS byte of each page.
    pub pfs: Vec<u8>,
    /// Page 9.
    pub boot: Box<Page>,
}

// Reads the boot page, and notes its errors.
fn read_boot<R: SnapReader>(
    alloc: Global,
    reader: &mut R,
    g: Geometry,
    errors: &mut Vec<CheckError>,
) -> Result<Box<Page>, ReadStop>
    requires { HasShape g (R.pages reader.old) }
    ensures page { IfOk result (λ boot. IfSome (R.image reader.old) (λ image. boot.value.bytes ≡ image_page image 9)) }
    ensures errors { IfOk result (λ boot. Adds errors.old.items errors.new.items (GivesError g 9 boot.value.bytes)) }
    ensures reads { OnlyReads R.SnapReader reader.old reader.new (stop_of result) }
{
    let boot = read_page(alloc, reader, PageNo(9))?;
    note(errors, g, PageNo(9), &boot)?;
    Ok(boot)
}

/// Reads each system place of a file and its boot page once, and says what they say. All are read, even
/// where one is wrong.
pub fn read_system<R: SnapReader>(
    alloc: Global,
    reader: &mut R,
    g: Geometry,
    pages: u32,
) -> Result<SystemMaps, ReadStop>
    requires count { R.pages reader.old ≡ pages }
    requires shape { HasShape g pages }
    ensures maps { IfOk result (AreMapsRead g pages (R.image reader.old)) }
    ensures reads { OnlyReads R.SnapReader reader.old reader.new (stop_of result) }
{
    let mut page = Page::zeroed(alloc)?;
    let mut errors = Vec::new(alloc);
    let free = read_bits(
        alloc,
        reader,
        SystemKind::Gam,
        g,
        pages,
        &mut page,
        &mut errors,
    )?;
    let mixed = read_bits(
        alloc,
        reader,
        SystemKind::Sgam,
        g,
        pages,
        &mut page,
        &mut errors,
    )?;
    let pfs = read_bytes(alloc, reader, g, pages, &mut page, &mut errors)?;
    let boot = read_boot(alloc, reader, g, &mut errors)?;
    Ok(SystemMaps {
        errors,
        free,
        mixed,
        pfs,
        boot,
    })
}
