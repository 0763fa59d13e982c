//! The words in which the crates above speak of a data file: the plain data of pages and resources,
//! and, in `specs/`, what an image is, what each page is for, and which files pass the file's tests.
#![tactic(auto)]

mod data;
mod geometry;
mod header;
mod page_type;
mod pfs;
mod role;
mod sizes;

pub use data::{ExtentNo, Kind, Lsn, NoMemory, ObjId, PageNo, Resource, Tran};
pub use geometry::Geometry;
pub use header::Header;
pub use page_type::{
    BOOT_TYPE, DATA_TYPE, FILE_HEADER_TYPE, GAM_TYPE, IAM_TYPE, INDEX_TYPE, PFS_TYPE, SGAM_TYPE,
};
pub use pfs::PfsKind;
pub use role::Role;
pub use sizes::{
    BIT_COUNT, ENTRY_COUNT, EXTENT_SIZE, LARGEST_FILE, MAPS_START, PAGE_SIZE, PAYLOAD_LIMIT, ROOM,
    ROW_LIMIT, SMALLEST_FILE,
};
