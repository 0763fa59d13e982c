ghost use Rattle.std.specs.Prelude.{◌≡◌, ◌↔◌, ◌<◌, IsTrue, IsSome, IfSome, map};
ghost use Rattle.spec_file.specs.declared.sizes.TheConstants.{BIT_COUNT};
ghost use Rattle.spec_file.specs.Iam as spec;
ghost use Rattle.pg_iam.specs.Views.{bytes_of, Views};

use arrayvec::ArrayVec;
use pg_base::{Geometry, IAM_TYPE, MAPS_START, ObjId, Page, PageNo, read_header, u32_at};
use pg_geom::interval_pages;

/// An IAM page, as `test_iam` found it.
#[derive(Drop)]
pub struct IamView<'a> {
    pub object: ObjId,
    /// The interval whose extents the page marks.
    pub interval: u32,
    /// How many pages the chain had before this one.
    pub sequence: u32,
    pub next: PageNo,
    pub prev: PageNo,
    page: &'a Page,
}

/// Page p as an IAM page; none exactly where its type, its page id or its interval is wrong. `pages` is
/// the file's number of pages.
pub fn test_iam(page: &Page, p: PageNo, g: Geometry, pages: u32) -> Option<IamView<'_>>
    ensures found { IsSome result ↔ IsTrue (spec.is_iam_page g pages p.0 page.now.bytes) }
    ensures view { IfSome result (λ view. Views page.now.bytes view) }
{
    let header = read_header(page);
    let interval = u32_at(&page.bytes, MAPS_START);
    if header.page_type != IAM_TYPE || header.page_id != p || !has_interval(g, pages, interval) {
        return None;
    }
    Some(IamView {
        object: header.object,
        interval,
        sequence: u32_at(&page.bytes, 100),
        next: header.next,
        prev: header.prev,
        page,
    })
}

/// Whether a file of so many pages has this interval.
pub fn has_interval(g: Geometry, pages: u32, interval: u32) -> bool
    ensures { result ≡ spec.has_interval g pages interval }
{
    interval_pages(g) as u64 * (interval as u64) < pages as u64
}

// The page in single-page slot i.
fn slot(page: &Page, i: usize) -> PageNo
    requires { i < 8 }
    ensures { result.0 ≡ spec.iam_slot page.now.bytes i }
{
    PageNo(u32_at(&page.bytes, 104 + 4 * i))
}

impl IamView<'_> {
    /// The pages in the eight single-page slots, in order; 0 for a slot that holds none.
    pub fn slots(&self) -> ArrayVec<PageNo, 8>
        ensures { map (λ p. p.0) result.items ≡ spec.iam_slots (bytes_of self.now) }
    {
        let page = self.page;
        ArrayVec::from([
            slot(page, 0),
            slot(page, 1),
            slot(page, 2),
            slot(page, 3),
            slot(page, 4),
            slot(page, 5),
            slot(page, 6),
            slot(page, 7),
        ])
    }

    /// Whether the page marks extent n of its interval.
    pub fn marks(&self, n: u32) -> bool
        requires { n < BIT_COUNT }
        ensures { result ≡ spec.iam_mark (bytes_of self.now) n }
    {
        (self.page.bytes[136 + n as usize / 8] >> (n % 8)) & 1 == 1
    }
}
