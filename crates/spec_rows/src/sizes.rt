// The numbers of rows and slots (this project's own).

/// The first byte of a data row.
pub const DATA_STATUS: u8 = 0x10;

/// The first byte of an index row.
pub const INDEX_STATUS: u8 = 0x06;

/// How many bytes of a data row stand before its payload: status, length and key.
pub const DATA_HEAD: u16 = 11;

/// How many bytes an index row has.
pub const INDEX_LENGTH: u16 = 13;

/// The most slots for which a page has room.
pub const SLOT_LIMIT: u16 = 4048;
