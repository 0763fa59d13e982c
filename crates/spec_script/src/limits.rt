// The limits of scripts and schedules, and the numbers of refusals. The limits are this project's own;
// numbers are chosen after those of SQL Server, and what each means here is this project's own.

/// The most bytes of a script or a schedule.
pub const LONGEST_TEXT: usize = 16_777_216;

/// The most lines of a script or a schedule that aren't skipped.
pub const MOST_LINES: usize = 65_536;

/// The most turns that one line of a schedule gives.
pub const MOST_TURNS: u32 = 10_000_000;

/// The most workers of a check.
pub const MOST_WORKERS: u8 = 16;

/// The workers of a check that names none.
pub const USUAL_WORKERS: u8 = 4;

/// No object has the name.
pub const NO_TABLE: u16 = 208;

/// Memory ran out.
pub const NO_MEMORY: u16 = 701;

/// The device failed in reading a page.
pub const READ_FAULT: u16 = 823;

/// A page isn't what its place asks for.
pub const BAD_PAGE: u16 = 824;

/// No page is to be had.
pub const NO_ROOM: u16 = 1105;

/// Another transaction holds a resource.
pub const HELD: u16 = 1222;

/// The key is there already.
pub const SAME_KEY: u16 = 2627;

/// An object has the name already.
pub const SAME_NAME: u16 = 2714;

/// COMMIT where no transaction is open.
pub const NOTHING_TO_COMMIT: u16 = 3902;

/// ROLLBACK where no transaction is open.
pub const NOTHING_TO_UNDO: u16 = 3903;

/// A limit of the log is passed.
pub const LOG_FULL: u16 = 9002;

/// BEGIN where a transaction is open.
pub const IS_OPEN: u16 = 60001;

/// The catalog has no entry for one more table.
pub const TOO_MANY_TABLES: u16 = 60002;
