ghost use Rattle.std.specs.Prelude.{◌≡◌, ◌<◌, IfSome, IfOk};
ghost use Rattle.spec_file.specs.Image.{page};
ghost use Rattle.pg_base.specs.Stops.{stop_of};
ghost use Rattle.pg_base.specs.Reading.{OnlyReads};

use crate::{Page, PageNo, ReadStop, SnapReader};
use std::alloc::Global;

/// Page `p` of a reader's image, in memory of its own.
pub fn read_page<R: SnapReader>(
    alloc: Global,
    reader: &mut R,
    p: PageNo,
) -> Result<Box<Page>, ReadStop>
    requires { p.0 < R.pages reader.old }
    ensures page { IfOk result (λ found. IfSome (R.image reader.old) (λ image. found.value.bytes ≡ page image p.0)) }
    ensures reads { OnlyReads R.SnapReader reader.old reader.new (stop_of result) }
{
    let mut page = Page::zeroed(alloc)?;
    reader.page(p, &mut page)?;
    Ok(page)
}
