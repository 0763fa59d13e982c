ghost use Rattle.spec_rows.specs.PageTest.{HoldsRows};

use pg_base::{Kind, Page};

/// The rows of a page that passes its test.
#[derive(Drop)]
pub struct SlotView<'a> {
    pub(crate) page: &'a Page,
    /// The kind of the page's table.
    pub(crate) kind: Kind,
    ghost holds: { HoldsRows kind page.now.bytes },
}
