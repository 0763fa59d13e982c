// The sizes of a page's parts, and the limits of a file.

/// How many bytes a page has (Pages and Extents Architecture Guide).
pub const PAGE_SIZE: usize = 8192;

/// Where the bits of a GAM or SGAM page and the bytes of a PFS page begin, and the rows of a page that
/// holds rows: behind the header (Pages and Extents Architecture Guide).
pub const MAPS_START: usize = 96;

/// How many bits a GAM or SGAM page has, and so an IAM page's marks: one for each extent of an interval
/// (close to the Pages and Extents Architecture Guide; the exact number is this project's own).
pub const BIT_COUNT: u32 = 63_904;

/// How many bytes of a page rows and their slots can use (Pages and Extents Architecture Guide).
pub const ROOM: u16 = 8096;

/// The most bytes of a row (this project's own).
pub const ROW_LIMIT: usize = 1024;

/// The most bytes of a row's payload (this project's own).
pub const PAYLOAD_LIMIT: usize = 1013;

/// How many entries a catalog has, and so the most objects (this project's own).
pub const ENTRY_COUNT: usize = 128;

/// The least bytes of a file (this project's own).
pub const SMALLEST_FILE: u64 = 131_072;

/// The most bytes of a file (this project's own).
pub const LARGEST_FILE: u64 = 4_294_967_296;

/// A file is made of extents of so many bytes (Pages and Extents Architecture Guide).
pub const EXTENT_SIZE: u64 = 65_536;
