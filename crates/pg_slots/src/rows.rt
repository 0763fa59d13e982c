ghost use Rattle.std.specs.Prelude.{◌≡◌, ◌<◌, IsTrue, length};
ghost use Rattle.spec_rows.specs.Slots as slots;
ghost use Rattle.spec_rows.specs.PageTest.{HoldsRows};
ghost use Rattle.pg_slots.specs.Sizes.{RowsStand};
ghost use Rattle.pg_slots.specs.Views.{bytes_of, kind_of};

use crate::slot::{row_size, slot_at};
use crate::view::SlotView;
use pg_base::{Kind, PAGE_SIZE, Page, u16_at};

/// The rows of a page.
pub(crate) fn view_of(page: &Page, kind: Kind) -> SlotView<'_>
    requires { HoldsRows kind page.now.bytes }
    ensures bytes { bytes_of result ≡ page.now.bytes }
    ensures kind { kind_of result ≡ kind }
{
    SlotView { page, kind }
}

impl SlotView<'_> {
    /// How many rows the page has.
    pub fn count(&self) -> u16
        ensures { result ≡ slots.slot_count (bytes_of self.now) }
    {
        u16_at(&self.page.bytes, 20)
    }

    /// The bytes of row i: one whole row, an index row on an index page, else a row of the form of a data row.
    pub fn row(&self, i: u16) -> &[u8]
        requires { i < slots.slot_count (bytes_of self.now) }
        ensures row { result.now ≡ slots.page_row (bytes_of self.now) i }
        ensures fits { IsTrue (slots.fits_page (kind_of self.now) (bytes_of self.now) result.now) }
    {
        row_at(self.page, i)
    }
}

/// The bytes of row i.
pub(crate) fn row_at(page: &Page, i: u16) -> &[u8]
    requires rows { RowsStand page.now.bytes }
    requires i { i < slots.slot_count page.now.bytes }
    ensures row { result.now ≡ slots.page_row page.now.bytes i }
    ensures long { length page.now.bytes ≡ PAGE_SIZE }
{
    let start = slot_at(page, i) as usize;
    let size = row_size(page, i) as usize;
    &page.bytes[start..start + size]
}
