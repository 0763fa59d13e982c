use crate::{ObjId, PageNo};

/// What a page says of itself in its first 28 bytes. The layout is this project's own; the fields are
/// those of the Pages and Extents Architecture Guide.
#[derive(Clone, Copy, Debug, PartialEq, Eq)]
pub struct Header {
    /// 1 data, 2 index, 8 GAM, 9 SGAM, 10 IAM, 11 PFS, 13 boot, 15 file header.
    pub page_type: u8,
    /// 0 for a leaf or a heap page.
    pub level: u8,
    pub page_id: PageNo,
    pub object: ObjId,
    /// The neighbours on the same level; 0 for none.
    pub prev: PageNo,
    pub next: PageNo,
    /// How many rows the page has.
    pub slots: u16,
    /// How many bytes neither rows nor slots use.
    pub free_count: u16,
    /// The offset behind the last row.
    pub free_from: u16,
    pub ghosts: u16,
}
