// The limits of a log, and the outcome of a check in it (all are this project's own).

/// The most bytes that a log may have when it is opened.
pub const LONGEST_LOG: u64 = 536_870_912;

/// The most changes of one transaction.
pub const MOST_CHANGES: u64 = 8192;

/// The most items of a log that are changes, with an undo for each.
pub const MOST_ITEMS: u64 = 1_048_576;

/// The most bytes that the changes of a log have, with an undo for each.
pub const MOST_BYTES: u64 = 268_435_456;

/// The most bytes that the changes of one statement have.
pub const MOST_SIZE: u64 = 134_381_568;

/// A check ended with its report.
pub const REPORTED: u8 = 0;

/// A check ended by a fault of the device.
pub const FAULTED: u8 = 1;

/// A check ended at a damaged page.
pub const DAMAGED: u8 = 2;

/// A check ended for want of memory.
pub const SHORT: u8 = 3;
