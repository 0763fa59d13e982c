ghost use Rattle.std.specs.Prelude.{◌≡◌, [], IsErr, IsErrOf, OnOk, OnErr};
ghost use Rattle.std.specs.Option.{ForSome};
ghost use Rattle.spec_file.specs.Places.{HasShape};
ghost use Rattle.pg_base.specs.Faults.{Counts};
ghost use Rattle.file_new.specs.Writing.{written, StopsWriting, Creates};

use db_make::make_page;
use pg_base::{Geometry, NoMemory, Page, PageNo};
use std::alloc::Global;
use vol_dev::{DeviceFailed, Volume};

/// Why a new file was not written.
#[derive(Clone, Copy, Debug, PartialEq, Eq)]
pub enum NewStop {
    /// The volume isn't empty.
    NotEmpty,
    /// The volume failed in this call, and counted it.
    Failed,
    NoMemory,
}

impl From<DeviceFailed> for NewStop {
    ghost use Rattle.file_new.specs.declared.write.NewStop.TheVariants.{Failed};

    ghost from_gives = { λ _ stop. stop ≡ Failed };

    fn from(_: DeviceFailed) -> Self {
        NewStop::Failed
    }
}

impl From<NoMemory> for NewStop {
    ghost use Rattle.file_new.specs.declared.write.NewStop.TheVariants.{NoMemory};

    ghost from_gives = { λ _ stop. stop ≡ NoMemory };

    fn from(_: NoMemory) -> Self {
        NewStop::NoMemory
    }
}

// Writes the pages, in rising order.
fn write_pages<V: Volume>(
    g: Geometry,
    pages: u32,
    page: &mut Page,
    volume: &mut V,
) -> Result<(), DeviceFailed>
    requires shape { HasShape g pages }
    requires empty { ForSome (V.contents volume.old) (λ bytes. bytes ≡ []) }
    ensures ok { OnOk result (V.contents volume.new ≡ written g pages pages (V.contents volume.old)) }
    ensures err { OnErr result (StopsWriting g pages (V.contents volume.old) (V.contents volume.new)) }
    ensures faults { Counts (IsErr result) (V.faults volume.old) (V.faults volume.new) }
{
    for p in 0..pages {
        make_page(g, pages, PageNo(p), page);
        volume.write(PageNo(p), page)?;
    }
    Ok(())
}

/// Writes a new file of so many pages, which are whole extents inside the geometry's limits, on an empty volume.
pub fn write_new<V: Volume>(
    alloc: Global,
    g: Geometry,
    pages: u32,
    volume: &mut V,
) -> Result<(), NewStop>
    requires { HasShape g pages }
    ensures stands { Creates g pages (V.contents volume.old) (V.contents volume.new) result }
    ensures faults { Counts (IsErrOf result NewStop.Failed) (V.faults volume.old) (V.faults volume.new) }
{
    if volume.size()? != 0 {
        return Err(NewStop::NotEmpty);
    }
    let mut page = Page::zeroed(alloc)?;
    write_pages(g, pages, &mut page, volume)?;
    Ok(())
}
