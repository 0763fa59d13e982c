// Pages that are zeros, but for a header.
ghost use Rattle.std.specs.Prelude.{◌≡◌, ◌++◌, Some, replicate};
ghost use Rattle.pg_base.specs.Zeros.{zero_page};
ghost use Rattle.spec_make.specs.NewMaps.{content_size};
ghost use Rattle.spec_make.specs.NewPages.{new_header};

use pg_base::{Header, ObjId, PAGE_SIZE, Page, PageNo, is_whole, write_header};

/// All bytes become 0.
#[tactic(auto, unfolding(pg_base::specs::Zeros::zero_page))]
pub(crate) fn clear(page: &mut Page)
    ensures { page.new.bytes ≡ zero_page }
{
    page.bytes = [0; PAGE_SIZE];
}

/// Makes page p say this type, with zeros behind its header.
pub(crate) fn start_page(page: &mut Page, page_type: u8, p: PageNo)
    ensures { page.new.bytes ≡ new_header (Some page_type) p.0 ++ replicate content_size 0 }
{
    clear(page);
    write_header(
        page,
        &Header {
            page_type,
            level: 0,
            page_id: p,
            object: ObjId(0),
            prev: PageNo(0),
            next: PageNo(0),
            slots: 0,
            free_count: 0,
            free_from: 0,
            ghosts: 0,
        },
    );
    is_whole(page);
}
