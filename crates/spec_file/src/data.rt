// Numbers with a meaning of their own, and what a transaction may hold.
ghost use Rattle.std.specs.Prelude.{◌≡◌};

use std::alloc::{AllocError, AllocFailed};

/// The number of a page of the file, from 0 (Pages and Extents Architecture Guide).
#[derive(Clone, Copy, Debug, PartialEq, Eq, PartialOrd, Ord)]
pub struct PageNo(pub u32);

/// The number of an object, from 1; 0 stands for none.
#[derive(Clone, Copy, Debug, PartialEq, Eq, PartialOrd, Ord)]
pub struct ObjId(pub u32);

/// The number of an extent, eight pages that stand together, from 0 (Pages and Extents Architecture
/// Guide).
#[derive(Clone, Copy, Debug, PartialEq, Eq, PartialOrd, Ord)]
pub struct ExtentNo(pub u32);

/// The place of an item in the log, from 1 (this project's own).
#[derive(Clone, Copy, Debug, PartialEq, Eq)]
pub struct Lsn(pub u64);

/// The number of a transaction, from 1; 0 stands for none (this project's own).
#[derive(Clone, Copy, Debug, PartialEq, Eq)]
pub struct Tran(pub u64);

/// How an object keeps its rows: in no order, or in a tree by their keys.
#[derive(Clone, Copy, Debug, PartialEq, Eq)]
pub enum Kind {
    Heap,
    Clustered,
}

impl Kind {
    ghost use Rattle.spec_file.specs.Kinds.{is_clustered};

    /// Whether the rows stand in a tree.
    pub fn is_clustered(self) -> bool
        ensures { result ≡ is_clustered self }
    {
        matches!(self, Kind::Clustered)
    }
}

/// What a transaction may hold: the catalog, an object as a whole, an extent, the PFS byte of a page,
/// or a page (the grains are this project's own). The order of the variants is the order in which a
/// statement takes them.
#[derive(Clone, Copy, Debug, PartialEq, Eq, PartialOrd, Ord)]
pub enum Resource {
    Catalog,
    Table(ObjId),
    Extent(ExtentNo),
    Byte(PageNo),
    Page(PageNo),
}

/// Memory ran out.
#[derive(Clone, Copy, Debug, PartialEq, Eq)]
pub struct NoMemory;

impl From<AllocError> for NoMemory {
    fn from(_: AllocError) -> Self {
        NoMemory
    }
}

impl<T: Drop> From<AllocFailed<T>> for NoMemory {
    fn from(_: AllocFailed<T>) -> Self {
        NoMemory
    }
}
