ghost use Rattle.std.specs.Prelude.{◌≡◌};
ghost use Rattle.spec_file.specs.Header.{header_of};
ghost use Rattle.spec_rows.specs.PageTest.{PassesTest};
ghost use Rattle.pg_slots.specs.Views.{bytes_of};

use pg_base::{Header, Kind, ObjId, PageNo};
use pg_slots::SlotView;

/// A page of an object that passed its test.
#[derive(Drop)]
pub(crate) struct TestedPage<'a> {
    pub object: ObjId,
    pub kind: Kind,
    pub number: PageNo,
    pub header: Header,
    pub view: SlotView<'a>,
    ghost read: { header ≡ header_of (bytes_of view) },
    ghost passes: { PassesTest number.0 object.0 kind (bytes_of view) },
}
