// Page 0, which says what the file is.
ghost use Rattle.std.specs.Prelude.{◌≡◌, ◌++◌, Some, codes, take, drop};
ghost use Rattle.spec_file.specs.declared.page_type.TheConstants.{FILE_HEADER_TYPE};
ghost use Rattle.spec_make.specs.NewPages.{new_header, geometry_byte as byte_of, first_content};

use crate::start::start_page;
use pg_base::{FILE_HEADER_TYPE, Geometry, MAPS_START, Page, PageNo, is_whole, put_u16, put_u32};

// The eight bytes by which a file is known.
const MAGIC: [u8; 8] = *b"PGCHKDB1";

// The version of the format.
const VERSION: u16 = 1;

fn geometry_byte(g: Geometry) -> u8
    ensures { result ≡ byte_of g }
{
    match g {
        Geometry::Standard => 1,
        Geometry::Small => 2,
    }
}

// The eight bytes go behind the header.
fn put_magic(page: &mut Page)
    ensures { page.new.bytes ≡ take MAPS_START page.old.bytes ++ (codes "PGCHKDB1" ++ drop 104 page.old.bytes) }
{
    page.bytes[MAPS_START..MAPS_START + 8].copy_from_slice(MAGIC.as_slice());
}

/// Makes page p the file header of a file of so many pages.
pub(crate) fn make_first(g: Geometry, pages: u32, p: PageNo, into: &mut Page)
    ensures { into.new.bytes ≡ new_header (Some FILE_HEADER_TYPE) p.0 ++ first_content g pages }
{
    start_page(into, FILE_HEADER_TYPE, p);
    put_magic(into);
    put_u16(into, 104, VERSION);
    into.bytes[106] = geometry_byte(g);
    put_u32(into, 108, pages);
    is_whole(into);
}
