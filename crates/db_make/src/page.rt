ghost use Rattle.std.specs.Prelude.{◌≡◌, ◌<◌};
ghost use Rattle.spec_file.specs.Places.{HasShape};
ghost use Rattle.spec_make.specs.NewPages.{new_page};

use crate::first::make_first;
use crate::maps::{make_gam, make_pfs, make_sgam};
use crate::start::{clear, start_page};
use pg_base::{BOOT_TYPE, Geometry, Page, PageNo, Role};
use pg_geom::role_of;

/// Makes `into` page p of a new file of so many pages, which are whole extents inside the geometry's limits.
pub fn make_page(g: Geometry, pages: u32, p: PageNo, into: &mut Page)
    requires shape { HasShape g pages }
    requires inside { p.0 < pages }
    ensures { into.new.bytes ≡ new_page g pages p.0 }
{
    match role_of(g, p) {
        Role::FileHeader => make_first(g, pages, p, into),
        Role::Pfs => make_pfs(g, pages, p, into),
        Role::Gam => make_gam(g, pages, p, into),
        Role::Sgam => make_sgam(g, p, into),
        Role::Boot => start_page(into, BOOT_TYPE, p),
        Role::Reserved | Role::Ordinary => clear(into),
    }
}
