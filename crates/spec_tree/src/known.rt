// What is known of a page that passed its test.
use spec_file::{ObjId, PageNo};

/// A clustered table of the catalog, and the root of its tree.
#[derive(Clone, Copy)]
pub struct Root {
    pub object: ObjId,
    pub page: PageNo,
}

/// What a page of an object says of itself, with its first and last keys; none where it has no row.
#[derive(Clone, Copy, Debug, PartialEq, Eq)]
pub struct PageHead {
    pub object: ObjId,
    pub page: PageNo,
    /// 0 for a leaf or a heap page.
    pub level: u8,
    /// The neighbours on the same level; 0 for none.
    pub prev: PageNo,
    pub next: PageNo,
    pub first: Option<u64>,
    pub last: Option<u64>,
    /// The page that the last row of an index page names; 0 for a leaf or a heap page.
    pub last_child: PageNo,
}

/// A page of an object, and the page that it names as next.
#[derive(Clone, Copy)]
pub struct Link {
    pub object: ObjId,
    pub page: PageNo,
    pub next: PageNo,
}

/// The place of a row: its page and its slot.
#[derive(Clone, Copy, PartialEq, Eq, PartialOrd, Ord)]
pub struct RowPlace {
    pub page: PageNo,
    pub slot: u16,
}

/// A row of an index page, with what its page and the rows beside it say.
#[derive(Clone, Copy, Debug, PartialEq, Eq)]
pub struct IndexRow {
    pub object: ObjId,
    /// The page of the row, and its slot there.
    pub parent: PageNo,
    pub slot: u16,
    /// The level of that page, above 0.
    pub level: u8,
    pub key: u64,
    /// The key of the next slot; none for the last.
    pub next_key: Option<u64>,
    /// The page that the row names.
    pub child: PageNo,
    /// The page that the slot before names; 0 for slot 0.
    pub before: PageNo,
    /// The neighbours of the row's page.
    pub parent_prev: PageNo,
    pub parent_next: PageNo,
}
