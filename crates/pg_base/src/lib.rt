//! Pages: their numbers and headers, the words of a command line, what reads the pages of one image, and
//! bytes that are put behind others.
#![tactic(auto)]

mod bytes;
mod header;
mod numbers;
mod page;
mod read;
mod reader;
mod words;

pub use bytes::{append, append_three};
pub use header::{is_page_of, read_header, write_header};
pub use numbers::{put_u16, put_u32, u16_at, u32_at, u64_at};
pub use page::{Page, is_whole};
pub use read::read_page;
pub use reader::{ReadStop, SnapReader};
pub use spec_file::{
    BOOT_TYPE, DATA_TYPE, ExtentNo, FILE_HEADER_TYPE, GAM_TYPE, Geometry, Header, IAM_TYPE,
    INDEX_TYPE, Kind, Lsn, MAPS_START, NoMemory, ObjId, PAGE_SIZE, PFS_TYPE, PageNo, Resource,
    Role, SGAM_TYPE, Tran,
};
pub use words::Words;
