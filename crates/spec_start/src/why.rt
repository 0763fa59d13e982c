// Why a data file is refused.

/// Why a file is refused: the first of its tests that fails.
#[derive(Clone, Copy, Debug, PartialEq, Eq)]
pub enum FileWhy {
    /// Its bytes are no whole number of extents from 128 KiB to 4 GiB.
    Size,
    /// Page 0 isn't a file header.
    Header,
    /// Its version isn't 1.
    Version,
    /// It names no geometry.
    Geometry,
    /// It gives another number of pages than the file has, or the geometry doesn't allow so many.
    Count,
    /// All tests pass, but the file is to be worked on later.
    Later,
}
