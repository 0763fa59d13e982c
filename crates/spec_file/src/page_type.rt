// The types of pages, which stand in byte 1 of a header (Pages and Extents Architecture Guide).

/// A page with data rows: of a heap, or a leaf of a tree.
pub const DATA_TYPE: u8 = 1;

/// A page with index rows.
pub const INDEX_TYPE: u8 = 2;

pub const GAM_TYPE: u8 = 8;

pub const SGAM_TYPE: u8 = 9;

pub const IAM_TYPE: u8 = 10;

pub const PFS_TYPE: u8 = 11;

pub const BOOT_TYPE: u8 = 13;

/// Page 0.
pub const FILE_HEADER_TYPE: u8 = 15;
